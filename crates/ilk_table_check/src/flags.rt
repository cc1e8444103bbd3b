ghost use Rattle.std.specs.Prelude.{ℕ, ◌≡◌, ◌==◌, ◌||◌, ◌<◌, IfOk, false, length, map, slice_index_or};
ghost use Rattle.ilk_plant.specs.Network.{contains_section};
ghost use Rattle.ilk_base.specs.Numbers.{has_number};

use ilk_plant::Listed;
use std::alloc::{AllocError, Global};
use std::marker::Model;

/// A list of flags, one for each number below a count.
#[derive(Drop)]
pub(crate) struct Flags {
    flags: Vec<bool>,
}

impl Model for Flags {
    ghost use Rattle.std.specs.Prelude.{Bool, List};

    ghost Value = { List Bool };

    ghost view = { λ f. f.flags.items };
}

impl Flags {
    /// Creates `count` flags, none of which is set. Fails only if memory runs out.
    pub fn new(alloc: Global, count: u32) -> Result<Flags, AllocError>
        ensures count { IfOk result (λ flags. length flags ≡ count) }
        ensures flags { IfOk result
            (λ flags. (y : ℕ) → y < count → slice_index_or flags y false ≡ false) }
    {
        Ok(Flags {
            flags: vec![in alloc; false; count as usize]?,
        })
    }

    /// Creates `count` flags, and sets those of `numbers`. Fails only if memory runs out.
    pub fn from_numbers(alloc: Global, count: u32, numbers: &[u32]) -> Result<Flags, AllocError>
        ensures count { IfOk result (λ flags. length flags ≡ count) }
        ensures flags { IfOk result
            (λ flags. (y : ℕ) → y < count →
            slice_index_or flags y false ≡ has_number y numbers.now) }
    {
        let mut flags = Flags::new(alloc, count)?;
        flags.set_numbers(numbers);
        Ok(flags)
    }

    /// Returns the flags in order.
    pub fn as_slice(&self) -> &[bool]
        ensures { result.now ≡ self.now }
    {
        self.flags.as_slice()
    }

    /// Returns the flag of number `x`. Returns `false` if there is none.
    pub fn at(&self, x: u32) -> bool
        ensures { result ≡ slice_index_or self.now x false }
    {
        match self.flags.get(x as usize) {
            Some(flag) => *flag,
            None => false,
        }
    }

    fn set(&mut self, x: u32)
        ensures count { length self.new ≡ length self.old }
        ensures flags { (y : ℕ) → y < length self.old →
            slice_index_or self.new y false ≡ (slice_index_or self.old y false || (x == y)) }
    {
        if (x as usize) < self.flags.len() {
            self.flags[x as usize] = true;
        }
    }

    /// Sets the flags of `numbers`.
    pub fn set_numbers(&mut self, numbers: &[u32])
        ensures count { length self.new ≡ length self.old }
        ensures flags { (y : ℕ) → y < length self.old →
            slice_index_or self.new y false
            ≡ (slice_index_or self.old y false || has_number y numbers.now) }
    {
        for x in numbers {
            self.set(*x);
        }
    }

    /// Sets the flag of each listed point's section.
    pub fn set_points(&mut self, points: &[Listed])
        ensures count { length self.new ≡ length self.old }
        ensures flags { (y : ℕ) → y < length self.old →
            slice_index_or self.new y false
            ≡
            (slice_index_or self.old y false
            || contains_section y (map (λ listed. listed.point) points.now)) }
    {
        for listed in points {
            self.set(listed.point);
        }
    }
}
