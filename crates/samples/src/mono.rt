//! One channel: a signed number of 16 bits, low byte first.
ghost use Rattle.samples.specs.MonoCode.{coded_mono, heard_mono, silent_mono};
ghost use Rattle.samples.specs.Samples.{mono_back};
ghost use Rattle.std.proofs.Common.{rules};

use crate::kind::Kind;
use crate::sample::MonoSample;

/// The kind of one channel.
#[derive(Clone, Copy)]
pub struct Mono;

impl Kind for Mono {
    type Sample = MonoSample;

    ghost wide = { 2 };

    ghost silent = { silent_mono };

    ghost coded = { coded_mono };

    ghost heard = { heard_mono };

    ghost least = { Prim.search rules };

    ghost most = { Prim.search rules };

    ghost long = { Prim.search rules };

    ghost back = { λ x. mono_back x };

    fn width(&self) -> usize {
        2
    }

    fn silence(&self) -> MonoSample {
        MonoSample::new(0)
    }

    fn code(&self, sample: MonoSample, out: &mut [u8]) {
        if out.len() == 2 {
            out.copy_from_slice(&sample.value().to_le_bytes());
        }
    }

    fn read(&self, bytes: &[u8]) -> MonoSample {
        match *bytes {
            [low, high] => MonoSample::new(i16::from_le_bytes([low, high])),
            _ => self.silence(),
        }
    }
}
