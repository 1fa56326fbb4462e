//! The samples of the kinds.
ghost use Rattle.std.specs.Prelude.{◌≡◌, ◌<◌, ◌∷◌, ◌++◌, Some};
ghost use Rattle.std.specs.Int.Signed.{mag};
ghost use Rattle.std.specs.Fmt.{signed_decimal};

use std::fmt;

/// A sample of one channel. In the logic a machine number is an integer without bounds, so its type says that it has 16 bits.
#[derive(Clone, Copy, Debug, PartialEq, Eq)]
pub struct MonoSample {
    value: i16,
    ghost fits: { mag value < 32768 },
}

impl MonoSample {
    pub fn new(value: i16) -> MonoSample
        ensures { result.value ≡ value }
    {
        MonoSample { value }
    }

    pub fn value(self) -> i16
        ensures { result ≡ self.value }
    {
        self.value
    }
}

impl fmt::Display for MonoSample {
    ghost output = { λ sample. Some (signed_decimal sample.value) };

    fn fmt<W: fmt::Write>(&self, f: &mut fmt::Formatter<W>) -> fmt::Result {
        write!(f, "{}", self.value)
    }
}

/// A sample of two channels.
#[derive(Clone, Copy, Debug, PartialEq, Eq)]
pub struct StereoSample {
    pub left: MonoSample,
    pub right: MonoSample,
}

// Left, then right.
impl fmt::Display for StereoSample {
    ghost output = { λ sample. Some (signed_decimal sample.left.value ++ 32 ∷ signed_decimal sample.right.value) };

    fn fmt<W: fmt::Write>(&self, f: &mut fmt::Formatter<W>) -> fmt::Result {
        write!(f, "{} {}", self.left, self.right)
    }
}
