//! What is asked of the records, and how one of them is changed: each call is lent one.
ghost use Rattle.std.specs.Prelude.{◌≡◌, ◌<◌, replicate, IfOk, None, slice_set};
ghost use Rattle.runs.specs.Limits.{max_runs};
ghost use Rattle.rack.specs.Limits.{line_count};
ghost use Rattle.rack.specs.Lines.{unused, line as line_of, fed, rung, used};
ghost use Rattle.pages.specs.Rule.{SameRule};
ghost use Rattle.pool.specs.Blocks.{Drops};
ghost use Rattle.pool.specs.Model.{TookBack};
ghost use Rattle.pool.specs.Tables.{run_table, page_table, supply_of, rule_of, seen};
ghost use Rattle.rack.specs.Model.{done};
ghost use Rattle.rack.specs.Turns.{turned};
ghost use Rattle.rack.specs.Parts.{OpenedBy, LoanAt};
ghost use Rattle.rack.specs.Verbs.{used_by};

use super::Inner;
use crate::LINES;
use crate::fault::RackFault;
use crate::line::Line;
use crate::number::Number;
use crate::state::{State, Verb};
use crate::verdict::turn;
use pages::supply::Supply;
use pool::Pool;

impl<S: Supply> Inner<S> {
    pub(crate) fn new(supply: S) -> Inner<S>
        ensures lines { result.lines ≡ replicate line_count unused }
        ensures runs { run_table result.pool ≡ replicate max_runs None }
        ensures supply { supply_of result.pool ≡ supply }
        ensures pages { page_table result.pool ≡ S.Supply.table supply }
    {
        Inner {
            lines: [Line::unused(); LINES],
            pool: Pool::new(supply),
        }
    }

    pub(crate) fn into_supply(self) -> S
        ensures supply { result ≡ supply_of self.pool }
        ensures pages { S.Supply.table result ≡ page_table self.pool }
    {
        let Inner { lines: _, pool } = self;
        pool.into_supply()
    }

    // The record of a line.
    pub(crate) fn line(&self, line: Number) -> Line
        ensures { result ≡ line_of self.now.lines line.value }
    {
        self.lines[line.index()]
    }

    // The record of a line, where it grants the call.
    pub(crate) fn find(&self, verb: Verb, line: Number) -> Result<Line, RackFault>
        ensures answer { done result ≡ done (turned (line_of self.now.lines line.value).state verb line.value) }
        ensures found { IfOk result (λ l. (l ≡ line_of self.now.lines line.value) × (used l.state ≡ used_by verb)) }
    {
        let found = self.line(line);
        turn(found.state, verb, line.number())?;
        Ok(found)
    }

    // Takes a block for a line, and makes its record.
    pub(crate) fn open(&mut self, line: Number, length: u32, bytes: u32) -> Result<u32, RackFault>
        ensures rule_kept { SameRule (rule_of self.old.pool) (rule_of self.new.pool) }
        ensures opened { OpenedBy (seen self.old.pool) (seen self.new.pool) bytes line.value length self.old.lines self.new.lines result }
    {
        let taken = self.pool.take(bytes);
        let block = taken.map_err(|fault| RackFault::Pool(fault, line.number()))?;
        self.lines[line.index()] = Line::opened(block.offset, length);
        Ok(block.offset)
    }

    // One sample more of a line.
    pub(crate) fn advance(&mut self, line: Number)
        requires { (line_of self.old.lines line.value).next < (line_of self.old.lines line.value).length }
        ensures lines { self.new.lines ≡ slice_set self.old.lines line.value (fed (line_of self.old.lines line.value)) }
        ensures pool { self.new.pool ≡ self.old.pool }
    {
        self.lines[line.index()].advance();
    }

    // A line is left to ring.
    pub(crate) fn ring(&mut self, line: Number)
        ensures lines { self.new.lines ≡ slice_set self.old.lines line.value (rung (line_of self.old.lines line.value)) }
        ensures pool { self.new.pool ≡ self.old.pool }
    {
        self.lines[line.index()].ring();
    }

    // The block of a line goes back to the pool, which cannot refuse it.
    pub(crate) fn close(&mut self, line: Number)
        requires { ∥ LoanAt (run_table self.old.pool) (line_of self.old.lines line.value).offset ∥₁ }
        ensures rule_kept { SameRule (rule_of self.old.pool) (rule_of self.new.pool) }
        ensures lines { self.new.lines ≡ slice_set self.old.lines line.value unused }
        ensures released { TookBack (seen self.old.pool) (seen self.new.pool) (line_of self.old.lines line.value).offset }
        ensures drops { Drops (run_table self.old.pool) (run_table self.new.pool) (line_of self.old.lines line.value).offset }
    {
        let n = line.index();
        let Ok(()) = self.pool.release(self.lines[n].offset) else {
            unreachable()
        };
        self.lines[n] = Line::unused();
    }
}
