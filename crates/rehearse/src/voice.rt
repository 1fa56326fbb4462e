//! Kinds of sample that a number can be played in.
use samples::{Kind, Mono, MonoSample, Stereo, StereoSample};

pub trait Voice: Kind + Copy {
    /// The sample that stands for a number.
    fn sample(&self, value: i16) -> Self::Sample;
}

impl Voice for Mono {
    fn sample(&self, value: i16) -> MonoSample {
        MonoSample::new(value)
    }
}

// The right channel plays the number that the left one does, one lower.
impl Voice for Stereo {
    fn sample(&self, value: i16) -> StereoSample {
        StereoSample {
            left: MonoSample::new(value),
            right: MonoSample::new(value.saturating_sub(1)),
        }
    }
}
