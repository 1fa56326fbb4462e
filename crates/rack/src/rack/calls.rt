//! What a rack does. `u32` has no `From` to `usize`, so places in memory are cast.
ghost use Rattle.std.specs.Prelude.{◌≡◌, ℕ, ◌*◌, ◌<◌, List, length, sum, slice_set};
ghost use Rattle.classes.specs.Limits.{page_bytes};
ghost use Rattle.pages.specs.Rule.{SameRule};
ghost use Rattle.rack.specs.Lines.{line as line_of, InUse, fed, written, tapped};
ghost use Rattle.rack.specs.Verbs.{used_by};
ghost use Rattle.rack.specs.Views.{lines_of, pages_of, supply_of, model_of, rule_of, coding_of};
ghost use Rattle.rack.specs.Model.{new_model, Opens, Puts, Feeds, Ticks, tap_answer, Rings, Closes, kept_answer};

use super::Rack;
use crate::fault::RackFault;
use crate::inner::Inner;
use crate::number::Number;
use crate::state::Verb;
use classes::{LONGEST_REQUEST, PAGE_BYTES};
use pages::supply::Supply;
use pool::Pool;
use samples::Kind;

impl<S: Supply, K: Kind + Drop> Rack<S, K> {
    /// A rack with no line in use.
    pub fn new(kind: K, supply: S) -> Rack<S, K>
        ensures supply { supply_of result ≡ supply }
        ensures new { (bytes : List ℕ) → model_of result bytes ≡ new_model (S.Supply.table supply) bytes }
    {
        Rack {
            kind,
            inner: Inner::new(supply),
        }
    }

    /// Opens a line of so many samples, and answers where its block begins.
    pub fn open(&mut self, line: u32, length: u32) -> Result<u32, RackFault>
        ensures rule_kept { SameRule (rule_of self.old) (rule_of self.new) }
        ensures opens { (bytes : List ℕ) → Opens (rule_of self.old) K.wide (model_of self.old bytes) line length result (model_of self.new bytes) }
    {
        let number = Number::new(line)?;
        if length == 0 {
            return Err(RackFault::NoLength(line));
        }
        let bytes = length as usize * self.kind.width();
        if bytes > LONGEST_REQUEST as usize {
            return Err(RackFault::TooLong(line));
        }
        self.inner.find(Verb::Open, number)?;
        // Fits, as is proved: `TryFrom` would add a refusal that never comes.
        self.inner.open(number, length, bytes as u32)
    }

    /// Feeds a playing line one sample.
    pub fn feed(&mut self, memory: &mut [u8], line: u32, sample: K::Sample) -> Result<(), RackFault>
        ensures pool_kept { self.new.inner.pool ≡ self.old.inner.pool }
        ensures feeds { Feeds (coding_of self.old) (model_of self.old memory.old) line sample result (model_of self.new memory.new) }
    {
        self.put(memory, Verb::Feed, line, sample)
    }

    /// Feeds a ringing line silence.
    pub fn tick(&mut self, memory: &mut [u8], line: u32) -> Result<(), RackFault>
        ensures pool_kept { self.new.inner.pool ≡ self.old.inner.pool }
        ensures ticks { Ticks (coding_of self.old) (model_of self.old memory.old) line result (model_of self.new memory.new) }
    {
        let silence = self.kind.silence();
        self.put(memory, Verb::Tick, line, silence)
    }

    /// The sample that was fed `d` feeds before the newest, or silence where fewer were fed.
    pub fn tap(&self, memory: &[u8], line: u32, d: u32) -> Result<K::Sample, RackFault>
        ensures { result ≡ tap_answer (coding_of self.now) (model_of self.now memory.now) line d }
    {
        let number = Number::new(line)?;
        let found = self.inner.find(Verb::Tap, number)?;
        if d >= found.length {
            return Err(RackFault::TooFar(line));
        }
        if memory.len() != self.memory_length() {
            return Err(RackFault::WrongMemory(line));
        }
        Ok(self.read(memory, number, d))
    }

    /// Leaves a playing line to ring.
    pub fn ring(&mut self, line: u32) -> Result<(), RackFault>
        ensures pool_kept { self.new.inner.pool ≡ self.old.inner.pool }
        ensures rings { (bytes : List ℕ) → Rings (model_of self.old bytes) line result (model_of self.new bytes) }
    {
        let number = Number::new(line)?;
        self.inner.find(Verb::Ring, number)?;
        self.inner.ring(number);
        Ok(())
    }

    /// Closes a ringing line: its block goes back to the pool.
    pub fn close(&mut self, line: u32) -> Result<(), RackFault>
        ensures rule_kept { SameRule (rule_of self.old) (rule_of self.new) }
        ensures closes { (bytes : List ℕ) → Closes (rule_of self.old) (model_of self.old bytes) line result (model_of self.new bytes) }
    {
        let number = Number::new(line)?;
        self.inner.find(Verb::Close, number)?;
        self.inner.close(number);
        Ok(())
    }

    /// How many samples a line keeps: as many as were fed, at most its length.
    pub fn kept(&self, line: u32) -> Result<u32, RackFault>
        ensures { result ≡ kept_answer (lines_of self.now) line }
    {
        let found = self.inner.find(Verb::Kept, Number::new(line)?)?;
        Ok(found.kept)
    }

    /// The sum of the pages of the supply's runs out.
    pub fn pages_out(&self) -> u32
        ensures { result ≡ sum (pages_of self.now) }
    {
        self.inner.pool.pages_out()
    }

    /// The supply, with the blocks of lines in use still out.
    pub fn into_supply(self) -> S
        ensures supply { result ≡ supply_of self }
        ensures pages { S.Supply.table result ≡ pages_of self }
    {
        let Rack { kind: _, inner } = self;
        inner.into_supply()
    }

    // The bytes that the sample memory has to have.
    fn memory_length(&self) -> usize
        ensures { result ≡ length (pages_of self.now) * page_bytes }
    {
        (self.inner.pool.span() * PAGE_BYTES) as usize
    }

    // Puts a sample, where the line is in use and grants the call. `pool_kept` says more than the model does: the supply
    // itself is as it was.
    fn put(
        &mut self,
        memory: &mut [u8],
        verb: Verb,
        line: u32,
        sample: K::Sample,
    ) -> Result<(), RackFault>
        requires { used_by verb ≡ 1 }
        ensures pool_kept { self.new.inner.pool ≡ self.old.inner.pool }
        ensures puts { Puts (coding_of self.old) verb (model_of self.old memory.old) line sample result (model_of self.new memory.new) }
    {
        let number = Number::new(line)?;
        self.inner.find(verb, number)?;
        if memory.len() != self.memory_length() {
            return Err(RackFault::WrongMemory(line));
        }
        self.write(memory, number, sample);
        Ok(())
    }

    // Puts a sample at the next position of a line in use.
    fn write(&mut self, memory: &mut [u8], number: Number, sample: K::Sample)
        requires used { InUse (line_of (lines_of self.old) number.value) }
        requires whole { length memory.old ≡ length (pages_of self.old) * page_bytes }
        ensures lines { lines_of self.new ≡ slice_set (lines_of self.old) number.value (fed (line_of (lines_of self.old) number.value)) }
        ensures pool_kept { self.new.inner.pool ≡ self.old.inner.pool }
        ensures memory { memory.new ≡ written K.coded K.wide memory.old (line_of (lines_of self.old) number.value) sample }
    {
        let line = self.inner.line(number);
        let width = self.kind.width();
        let at = line.offset as usize + line.next as usize * width;
        self.kind.code(sample, &mut memory[at..at + width]);
        self.inner.advance(number);
    }

    // The sample that a line in use was fed d feeds before the newest, or silence where fewer were fed.
    fn read(&self, memory: &[u8], number: Number, d: u32) -> K::Sample
        requires used { InUse (line_of (lines_of self.now) number.value) }
        requires near { d < (line_of (lines_of self.now) number.value).length }
        requires whole { length memory.now ≡ length (pages_of self.now) * page_bytes }
        ensures { result ≡ tapped K.heard K.silent K.wide memory.now (line_of (lines_of self.now) number.value) d }
    {
        let line = self.inner.line(number);
        if d >= line.kept {
            return self.kind.silence();
        }
        let width = self.kind.width();
        let at = line.offset as usize + line.position(d) as usize * width;
        self.kind.read(&memory[at..at + width])
    }
}
