//! Kinds of sample that a number can be played in. `rehearse` has a trait like this one: its right channel is another, and
//! one for both would need a crate of its own for two short impls.
use super::table::Said;
use samples::{Kind, Mono, MonoSample, Stereo, StereoSample};

pub(super) trait Voice: Kind + Copy {
    // The sample that stands for a number.
    fn sample(&self, value: i16) -> Self::Sample;

    // What a sample says.
    fn told(&self, sample: Self::Sample) -> Said;
}

impl Voice for Mono {
    fn sample(&self, value: i16) -> MonoSample {
        MonoSample::new(value)
    }

    fn told(&self, sample: MonoSample) -> Said {
        Said::Heard(sample.value())
    }
}

// The right channel plays the opposite of the left one, so that a swapped or a torn sample shows.
impl Voice for Stereo {
    fn sample(&self, value: i16) -> StereoSample {
        StereoSample {
            left: MonoSample::new(value),
            right: MonoSample::new(value.wrapping_neg()),
        }
    }

    fn told(&self, sample: StereoSample) -> Said {
        let left = sample.left.value();
        if sample.right.value() == left.wrapping_neg() {
            Said::Heard(left)
        } else {
            Said::Torn
        }
    }
}
