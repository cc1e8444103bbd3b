ghost use Rattle.std.specs.Prelude.{◌≡◌, ◌<◌, ◌≤◌, IfOk, IfSome, Some, length, option_map, slice_get};
ghost use Rattle.ilk_plant.specs.Draft.{repeats_earlier_name, number_or_len};
ghost use Rattle.ilk_plant.specs.Plant.{first_number_named};
ghost use Rattle.ilk_plant.specs.Names.{MapsNamesToFirstNumbers};
ghost use Rattle.ilk_plant.specs.declared.limits.TheConstants.{MAX_BOARDS};

use crate::{Row, Text};
use indexmap::IndexMap;
use std::alloc::{AllocError, Global};
use std::marker::Model;

/// A list of at most `MAX_BOARDS` names, numbered from 0, and an index that finds the first number
/// of a name. Contracts see only the list.
#[derive(Drop)]
pub struct Names {
    names: Row<Text>,
    numbers: IndexMap<String, u32>,
}

impl Model for Names {
    ghost use Rattle.std.specs.Prelude.{ℕ, List, ◌≤◌, length};
    ghost use Rattle.ilk_plant.specs.Names.{MapsNamesToFirstNumbers};
    ghost use Rattle.ilk_plant.specs.declared.limits.TheConstants.{MAX_BOARDS};

    ghost Value = { List (List ℕ) };

    ghost view = { λ n. n.names };

    ghost invariant = { λ n. (length n.names ≤ MAX_BOARDS) ×
        MapsNamesToFirstNumbers n.names n.numbers };
}

fn first_numbers(alloc: Global, names: &Row<Text>) -> Result<IndexMap<String, u32>, AllocError>
    requires { length names.now ≤ MAX_BOARDS }
    ensures { IfOk result (λ numbers. MapsNamesToFirstNumbers names.now numbers) }
{
    let mut numbers = IndexMap::new(alloc);
    for (i, name) in names.as_slice().iter().enumerate() {
        let is_known = numbers.contains_key(name.as_str());
        if !is_known {
            numbers.insert(String::from_str(alloc, name.as_str())?, i as u32)?;
        }
    }
    Ok(numbers)
}

impl Names {
    /// Creates the list and index of `names`. Fails only if memory runs out.
    pub fn from_names(alloc: Global, names: Row<Text>) -> Result<Names, AllocError>
        requires { length names ≤ MAX_BOARDS }
        ensures { IfOk result (λ made. made ≡ names) }
    {
        let numbers = first_numbers(alloc, &names)?;
        Ok(Names { names, numbers })
    }

    /// Returns the number of names.
    pub fn len(&self) -> u32
        ensures count { result ≡ length self.now }
        ensures few { result ≤ MAX_BOARDS }
    {
        self.names.len() as u32
    }

    /// Returns the name with number `i`.
    pub fn name(&self, i: u32) -> &Text
        requires { i < length self.now }
        ensures { slice_get self.now i ≡ Some result.now }
    {
        self.names.at(i as u64)
    }

    fn indexed(&self, name: &str) -> Option<u32>
        ensures { result ≡ first_number_named self.now name.now }
    {
        self.numbers.get(name).copied()
    }

    /// Returns the first number with the name `name`, or `None` if no number has it.
    pub fn number(&self, name: &str) -> Option<u32>
        ensures number { result ≡ first_number_named self.now name.now }
        ensures known { IfSome result (λ n. n < length self.now) }
    {
        match self.indexed(name) {
            Some(n) => Some(n),
            None => None,
        }
    }

    /// Returns the first number with the name `name`, or the number of names if no number has it.
    pub fn number_or_len(&self, name: &Text) -> u32
        ensures { result ≡ number_or_len self.now name.now }
    {
        match self.number(name.as_str()) {
            Some(n) => n,
            None => self.len(),
        }
    }

    /// Returns `number_or_len` of the name, or `None` if `name` is `None`.
    pub fn number_or_len_if_named(&self, name: &Option<Text>) -> Option<u32>
        ensures { result ≡ option_map (number_or_len self.now) name.now }
    {
        match name {
            Some(name) => Some(self.number_or_len(name)),
            None => None,
        }
    }

    /// Returns whether the name with number `i` equals a name with a smaller number. Returns
    /// `false` if there is no name `i`.
    pub fn repeats_earlier_name(&self, i: u32) -> bool
        ensures { result ≡ repeats_earlier_name self.now i }
    {
        if i >= self.len() {
            return false;
        }
        match self.number(self.name(i).as_str()) {
            Some(first) => first < i,
            None => false,
        }
    }
}
