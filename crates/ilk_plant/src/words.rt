//! The words in texts for directions, positions, aspects, locks and modes. Writing and reading use
//! the same words.

ghost use Rattle.std.specs.Prelude.{◌≡◌};
ghost use Rattle.ilk_plant.specs.Words as words;

use crate::{Aspect, Dir, Hold, Lie, Mode, Position};
use ilk_base::{HasWord, first_value_with_word};

impl HasWord for Dir {
    ghost use Rattle.ilk_plant.specs.Words.{direction_word};

    ghost word_of = { direction_word };

    fn word(self) -> &'static str {
        match self {
            Dir::Up => "up",
            Dir::Down => "down",
        }
    }
}

impl Dir {
    /// Returns the direction whose word is `word`, or `None` if there is none.
    pub fn from_word(word: &[u8]) -> Option<Dir>
        ensures { result ≡ words.direction_from_word word.now }
    {
        first_value_with_word(&[Dir::Up, Dir::Down], word)
    }
}

impl HasWord for Position {
    ghost use Rattle.ilk_plant.specs.Words.{position_word};

    ghost word_of = { position_word };

    fn word(self) -> &'static str {
        match self {
            Position::Plus => "plus",
            Position::Minus => "minus",
        }
    }
}

impl Position {
    /// Returns the position, plus or minus, whose word is `word`, or `None` if there is none.
    pub fn from_word(word: &[u8]) -> Option<Position>
        ensures { result ≡ words.position_from_word word.now }
    {
        first_value_with_word(&[Position::Plus, Position::Minus], word)
    }
}

impl HasWord for Lie {
    ghost use Rattle.ilk_plant.specs.Words.{lie_word};

    ghost word_of = { lie_word };

    fn word(self) -> &'static str {
        match self {
            Lie::Plus => "plus",
            Lie::Minus => "minus",
            Lie::Moving => "moving",
        }
    }
}

impl Lie {
    /// Returns the detected position whose word is `word`, or `None` if there is none.
    pub fn from_word(word: &[u8]) -> Option<Lie>
        ensures { result ≡ words.lie_from_word word.now }
    {
        first_value_with_word(&[Lie::Plus, Lie::Minus, Lie::Moving], word)
    }
}

impl HasWord for Aspect {
    ghost use Rattle.ilk_plant.specs.Words.{aspect_word};

    ghost word_of = { aspect_word };

    fn word(self) -> &'static str {
        match self {
            Aspect::Open => "open",
            Aspect::Closed => "closed",
        }
    }
}

impl Aspect {
    /// Returns the aspect whose word is `word`, or `None` if there is none.
    pub fn from_word(word: &[u8]) -> Option<Aspect>
        ensures { result ≡ words.aspect_from_word word.now }
    {
        first_value_with_word(&[Aspect::Open, Aspect::Closed], word)
    }
}

impl HasWord for Hold {
    ghost use Rattle.ilk_plant.specs.Words.{lock_state_word};

    ghost word_of = { lock_state_word };

    fn word(self) -> &'static str {
        match self {
            Hold::Free => "free",
            Hold::Locked => "locked",
            Hold::Used => "used",
        }
    }
}

impl Hold {
    /// Returns the section lock whose word is `word`, or `None` if there is none.
    pub fn from_word(word: &[u8]) -> Option<Hold>
        ensures { result ≡ words.lock_state_from_word word.now }
    {
        first_value_with_word(&[Hold::Free, Hold::Locked, Hold::Used], word)
    }
}

impl HasWord for Mode {
    ghost use Rattle.ilk_plant.specs.Words.{mode_word};

    ghost word_of = { mode_word };

    fn word(self) -> &'static str {
        match self {
            Mode::Free => "free",
            Mode::Marked => "marked",
            Mode::Allocating => "allocating",
            Mode::Locked => "locked",
            Mode::Occupied => "occupied",
        }
    }
}

impl Mode {
    /// Returns the route mode whose word is `word`, or `None` if there is none.
    pub fn from_word(word: &[u8]) -> Option<Mode>
        ensures { result ≡ words.mode_from_word word.now }
    {
        first_value_with_word(
            &[
                Mode::Free,
                Mode::Marked,
                Mode::Allocating,
                Mode::Locked,
                Mode::Occupied,
            ],
            word,
        )
    }
}
