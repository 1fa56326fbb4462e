//! What every kind of sample means.
ghost use Rattle.std.specs.Prelude.{◌≡◌, ℕ, ◌≤◌, List, length};
ghost use Rattle.samples.specs.Codes.{recoded, reread};

/// A kind of sample.
pub trait Kind {
    type Sample: Copy;

    // the bytes of a sample
    ghost wide: { ℕ };
    // the sample that is silence
    ghost silent: { Self.Sample };
    // the bytes that stand for a sample
    ghost coded: { Self.Sample → List ℕ };
    // the sample that bytes stand for
    ghost heard: { List ℕ → Self.Sample };

    /// The bytes of a sample.
    fn width(&self) -> usize
        ensures { result ≡ wide };

    fn silence(&self) -> Self::Sample
        ensures { result ≡ silent };

    /// Writes a sample's bytes. A slice of another length than the width is left as it was.
    fn code(&self, sample: Self::Sample, out: &mut [u8])
        ensures { out.new ≡ recoded wide (coded sample) out.old };

    /// The sample that the bytes stand for. A slice of another length than the width is read as silence.
    fn read(&self, bytes: &[u8]) -> Self::Sample
        ensures { result ≡ reread wide heard silent bytes.now };

    ghost least: { 1 ≤ wide };

    ghost most: { wide ≤ 8 };

    ghost long: { (x : Self.Sample) → length (coded x) ≡ wide };

    ghost back: { (x : Self.Sample) → heard (coded x) ≡ x };
}
