//! Two channels: left, then right, each as one channel.
ghost use Rattle.std.proofs.Common.{ap, ◌∙◌, rules};
ghost use Rattle.samples.specs.StereoCode.{coded_stereo, heard_stereo, silent_stereo};
ghost use Rattle.samples.specs.MonoCode.{coded_mono, heard_mono};
ghost use Rattle.samples.specs.Samples.{mono_back};
ghost use Rattle.samples.specs.StereoKindLemmas.{both};

use crate::kind::Kind;
use crate::mono::Mono;
use crate::sample::StereoSample;

/// The kind of two channels.
#[derive(Clone, Copy)]
pub struct Stereo;

impl Kind for Stereo {
    type Sample = StereoSample;

    ghost wide = { 4 };

    ghost silent = { silent_stereo };

    ghost coded = { coded_stereo };

    ghost heard = { heard_stereo };

    ghost least = { Prim.search rules };

    ghost most = { Prim.search rules };

    ghost long = { Prim.search rules };

    ghost back = { unfold both in λ x. ap (λ l. both l (heard_mono (coded_mono x.right))) (mono_back x.left) ∙ ap (both x.left) (mono_back x.right) };

    fn width(&self) -> usize {
        4
    }

    fn silence(&self) -> StereoSample {
        StereoSample {
            left: Mono.silence(),
            right: Mono.silence(),
        }
    }

    fn code(&self, sample: StereoSample, out: &mut [u8]) {
        if out.len() == 4 {
            let (left, right) = out.split_at_mut(2);
            Mono.code(sample.left, left);
            Mono.code(sample.right, right);
        }
    }

    fn read(&self, bytes: &[u8]) -> StereoSample {
        if bytes.len() == 4 {
            let (left, right) = bytes.split_at(2);
            StereoSample {
                left: Mono.read(left),
                right: Mono.read(right),
            }
        } else {
            self.silence()
        }
    }
}
