// The four ways to count the delays of timed paths.
ghost use Rattle.std.specs.Prelude.{◌≡◌, ◌<◌, Some};
ghost use Rattle.path.specs.Figures.{shown_predecessor};
ghost use Rattle.path.specs.Numbering.{Names, Numbers, semantics_name, semantics_number};
ghost use Rattle.path.specs.Steps.{end_in, origin_in};

use std::fmt;
use std::str::FromStr;
use thiserror::Error;

// The first letter says from where a delay is counted: L from the path's first instance, F from the one before it that
// begins a path. The second says which paths count: L all of them, F those that come first from their first instance.
#[derive(Clone, Copy, PartialEq, Eq, Hash, Debug)]
pub enum Semantics {
    LL,
    LF,
    FL,
    FF,
}

// A number or a name that no semantics has.
#[derive(Clone, Copy, PartialEq, Eq, Hash, Debug, Error)]
#[error("a semantics is LL, LF, FL or FF, or by number 0 to 3")]
pub struct UnknownSemantics;

impl TryFrom<u8> for Semantics {
    type Error = UnknownSemantics;

    ghost try_from_gives = { Numbers };

    fn try_from(number: u8) -> Result<Self, UnknownSemantics> {
        match number {
            0 => Ok(Semantics::LL),
            1 => Ok(Semantics::LF),
            2 => Ok(Semantics::FL),
            3 => Ok(Semantics::FF),
            _ => Err(UnknownSemantics),
        }
    }
}

impl From<Semantics> for u8 {
    ghost from_gives = { λ semantics number. number ≡ semantics_number semantics };

    fn from(semantics: Semantics) -> u8 {
        match semantics {
            Semantics::LL => 0,
            Semantics::LF => 1,
            Semantics::FL => 2,
            Semantics::FF => 3,
        }
    }
}

impl FromStr for Semantics {
    type Err = UnknownSemantics;

    ghost from_str_gives = { Names };

    fn from_str(name: &str) -> Result<Self, UnknownSemantics> {
        match name {
            "LL" => Ok(Semantics::LL),
            "LF" => Ok(Semantics::LF),
            "FL" => Ok(Semantics::FL),
            "FF" => Ok(Semantics::FF),
            _ => Err(UnknownSemantics),
        }
    }
}

impl fmt::Display for Semantics {
    ghost output = { λ semantics. Some (semantics_name semantics) };

    fn fmt<W: fmt::Write>(&self, f: &mut fmt::Formatter<W>) -> fmt::Result {
        f.write_str(match self {
            Semantics::LL => "LL",
            Semantics::LF => "LF",
            Semantics::FL => "FL",
            Semantics::FF => "FF",
        })
    }
}

// Each match says what one letter means for all four; to split the four into their letters first would be no shorter.
impl Semantics {
    // The instance from which delays are counted in the block that begins at `begin`, after the one at `before`. There
    // is none where its paths do not count: a first block has no predecessor.
    pub(crate) fn origin(self, begin: u64, before: Option<u64>) -> Option<u64>
        ensures { result ≡ origin_in self begin before }
    {
        match self {
            Semantics::LL | Semantics::LF => Some(begin),
            Semantics::FL | Semantics::FF => before,
        }
    }

    // The end that takes longest among those that count, from `near` up to the one before `far`.
    pub(crate) fn end(self, near: u64, far: u64) -> u64
        requires { near < far }
        ensures { result ≡ end_in self near far }
    {
        match self {
            Semantics::LL | Semantics::FL => far - 1,
            Semantics::LF | Semantics::FF => near,
        }
    }

    // The predecessor to answer where a delay is counted from `origin`.
    pub(crate) fn predecessor(self, origin: u64) -> Option<u64>
        ensures { result ≡ shown_predecessor self origin }
    {
        match self {
            Semantics::LL | Semantics::LF => None,
            Semantics::FL | Semantics::FF => Some(origin),
        }
    }
}
