//! Kinds of sample: how wide one is, what silence is, and how one stands in memory.
#![tactic(auto)]

mod kind;
mod mono;
mod sample;
mod stereo;

pub use kind::Kind;
pub use mono::Mono;
pub use sample::{MonoSample, StereoSample};
pub use stereo::Stereo;
