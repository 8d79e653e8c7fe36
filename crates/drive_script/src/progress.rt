//! What the lines so far say, and whether one more line may stand behind them.

ghost use Rattle.std.specs.Prelude.{◌≡◌, ℕ, ◌≤◌, List, length, [], ◌∷◌, ◌++◌, ◌↔◌, IsTrue, IfOk, MatchBool, string_bytes};
ghost use Rattle.drive_script.specs.Script as text;
ghost use Rattle.metrics_core.specs.Keys.{KeyText};
ghost use Rattle.metrics_core.specs.declared.kinds.MetricKind.{MetricKind};
ghost use Rattle.drive_script.specs.Growth.{SetsUp};
ghost use Rattle.drive_script.specs.Runs.{calls_said};
ghost use Rattle.drive_script.specs.Taking.{Takes, MaySetUp, MayRegister};
ghost use Rattle.drive_script.specs.Texts.{call_line_of, header_of, line_of, setup_of, script_of, script_so_far, settings_of, IsKnown, StandsBehind};
ghost use Rattle.drive_script.specs.Valid.{Registration, registered, HasHandle, AreValidLines, SparesOverflow};
ghost use Rattle.std.specs.List.{AllZip};
ghost use Rattle.std.specs.List.Sorted.{IsNonDecreasingBy};

use crate::headers::HeaderLine;
use crate::heads::Heads;
use crate::lines::{Statement, read_line};
use crate::recent::Recent;
use crate::{CallLine, Round, Script, Settings, Setup};
use hash_starts::HashStart;
use metrics_core::{Key, Memory, MetricKind, Unit};
use std::alloc::Global;

/// How many register lines a script may have.
const MAX_REGISTRATIONS: usize = 1_000_000;

/// How many samples the call lines of a script may record.
const MAX_SAMPLES: u32 = 16_777_216;

/// The settings and the rounds so far, the kind of each register line in them, which of these print alike, how many more
/// samples there is room for, and the least place of one more header line in their order. After an `Err` of a method it is of
/// no use.
#[derive(Drop)]
pub(crate) struct ScriptSoFar {
    settings: Settings,
    rounds: Vec<Round>,
    kinds: Vec<MetricKind>,
    heads: Heads,
    samples_left: u32,
    least_place: u32,
}

impl ScriptSoFar {
    /// Nothing is said yet.
    pub(crate) fn new(alloc: Global, start: HashStart) -> ScriptSoFar
        ensures { StandsBehind [] result }
    {
        ScriptSoFar {
            settings: Settings::new(alloc),
            rounds: Vec::new(alloc),
            kinds: Vec::new(alloc),
            heads: Heads::new(alloc, start),
            samples_left: MAX_SAMPLES,
            least_place: 0,
        }
    }

    /// Takes the next line. Answers whether the lines with it are a valid script.
    pub(crate) fn take_line<'a>(
        &mut self,
        alloc: Global,
        line: &'a [u8],
        recent: &mut Recent<'a>,
    ) -> Result<bool, Memory>
        ensures { (lines : List (List ℕ)) → StandsBehind lines self.old → IfOk result (λ taken.
            MatchBool taken (StandsBehind (lines ++ line.now ∷ []) self.new)
            (¬ AreValidLines (lines ++ line.now ∷ []))) }
    {
        match read_line(alloc, line, recent)? {
            None => Ok(false),
            Some(says) => self.take(alloc, says),
        }
    }

    /// Takes what the next line says. Answers whether the lines with it are a valid script.
    pub(crate) fn take(&mut self, alloc: Global, says: Statement) -> Result<bool, Memory>
        ensures { (lines : List (List ℕ)) (line : List ℕ) → StandsBehind lines self.old
            → text.IsLine line (line_of says) → IfOk result (λ taken.
            MatchBool taken (StandsBehind (lines ++ line ∷ []) self.new)
            (¬ AreValidLines (lines ++ line ∷ []))) }
    {
        match says {
            Statement::Header(line) => self.add_header(alloc, line),
            Statement::Round(moment) => self.begin_round(alloc, moment),
            Statement::Setup(setup) => self.set_up(alloc, setup),
            Statement::Call(call) => self.call(call),
        }
    }

    /// Takes the next call lines, in order. Answers whether the lines with them are a valid script.
    pub(crate) fn take_calls(&mut self, calls: Vec<CallLine>) -> Result<bool, Memory>
        ensures { (done lines : List (List ℕ)) → StandsBehind done self.old
            → AllZip text.IsLine lines (calls_said calls.items)
            → IfOk result (λ taken. IsTrue taken → StandsBehind (done ++ lines) self.new) }
    {
        for call in calls {
            if !self.call(call)? {
                return Ok(false);
            }
        }
        Ok(true)
    }

    /// The script that the lines are.
    pub(crate) fn into_script(self) -> Script
        ensures { script_of result ≡ script_so_far self }
    {
        let ScriptSoFar {
            settings,
            rounds,
            ..
        } = self;
        Script { settings, rounds }
    }

    /// A header line, if it may stand here.
    fn add_header(&mut self, alloc: Global, line: HeaderLine) -> Result<bool, Memory>
        ensures next { (said : text.Said) → IsKnown said self.old
            → IfOk result (Takes said self.old self.new (text.Header (header_of line))) }
    {
        if !self.rounds.is_empty() || line.place() < self.least_place {
            return Ok(false);
        }
        self.heads.add_header(alloc, &line)?;
        self.least_place = line.least_behind();
        self.settings.add(line)?;
        Ok(true)
    }

    /// A round begins, if it may.
    fn begin_round(&mut self, alloc: Global, moment: u64) -> Result<bool, Memory>
        ensures next { (said : text.Said) → IsKnown said self.old
            → IsNonDecreasingBy (λ round. round.moment) (script_so_far self.old).rounds
            → IfOk result (Takes said self.old self.new (text.Round moment)) }
    {
        if let Some(last) = self.rounds.last()
            && moment < last.moment
        {
            return Ok(false);
        }
        self.rounds.push(Round {
            moment,
            setup: Vec::new(alloc),
            calls: Vec::new(alloc),
        })?;
        Ok(true)
    }

    /// The last round sets up what a line says, if it may.
    fn set_up(&mut self, alloc: Global, setup: Setup) -> Result<bool, Memory>
        ensures next { (said : text.Said) → IsKnown said self.old
            → length (registered (script_so_far self.old)) ≤ 1000000
            → IfOk result (Takes said self.old self.new (text.Setup (setup_of setup))) }
    {
        match setup {
            Setup::Register { kind, key } => self.register(alloc, kind, key),
            Setup::Describe {
                kind,
                name,
                unit,
                text,
            } => self.describe(kind, name, unit, text),
        }
    }

    /// The last round describes a metric, if it may.
    fn describe(
        &mut self,
        kind: MetricKind,
        name: String,
        unit: Option<Unit>,
        description: String,
    ) -> Result<bool, Memory>
        ensures next { (said : text.Said) → IsKnown said self.old
            → length (registered (script_so_far self.old)) ≤ 1000000
            → IfOk result (Takes said self.old self.new
            (text.Setup (text.Describe kind (string_bytes name) unit (string_bytes description)))) }
    {
        if !self.may_set_up() {
            return Ok(false);
        }
        let Some(round) = self.rounds.last_mut() else {
            return Ok(false);
        };
        round.setup.push(Setup::Describe {
            kind,
            name,
            unit,
            text: description,
        })?;
        Ok(true)
    }

    /// The last round registers a series, if it may.
    fn register(&mut self, alloc: Global, kind: MetricKind, key: Key) -> Result<bool, Memory>
        ensures next { (said : text.Said) → IsKnown said self.old
            → IfOk result (Takes said self.old self.new (text.Setup (text.Register kind key))) }
    {
        if !self.may_register() {
            return Ok(false);
        }
        if !self.spares_overflow(alloc, &key)? {
            return Ok(false);
        }
        if !self.heads.note(alloc, kind, &key, &self.rounds)? {
            return Ok(false);
        }
        let Some(round) = self.rounds.last_mut() else {
            return Ok(false);
        };
        self.kinds.push(kind)?;
        round.setup.push(Setup::Register { kind, key })?;
        Ok(true)
    }

    /// Whether a setup line may stand here: in a round, before its calls.
    fn may_set_up(&self) -> bool
        ensures { MatchBool result (MaySetUp self.now)
            ((setup : text.SetupLine) (script : text.ScriptText) → ¬ SetsUp (script_so_far self.now) setup script) }
    {
        let Some(round) = self.rounds.last() else {
            return false;
        };
        round.calls.is_empty()
    }

    /// Whether a register line may stand here: where a setup line may, as one of the first 1,000,000.
    fn may_register(&self) -> bool
        ensures { (said : text.Said) → IsKnown said self.now
            → MatchBool result (MayRegister self.now)
            ((kind : MetricKind) (key : KeyText) (script : text.ScriptText)
            → ¬ SetsUp (script_so_far self.now) (text.Register kind key) script) }
    {
        self.may_set_up() && self.kinds.len() < MAX_REGISTRATIONS
    }

    /// Whether a key stands apart from what is made where series are past their limit, if there is one.
    fn spares_overflow(&self, alloc: Global, key: &Key) -> Result<bool, Memory>
        ensures { (said : text.Said) (kind : MetricKind) → IsKnown said self.now
            → IfOk result (λ spares. let registration : Registration = record { kind = kind; key = key.now } in
            MatchBool spares (SparesOverflow (settings_of self.now.settings) registration)
            (¬ SparesOverflow (settings_of self.now.settings) registration)) }
    {
        match self.settings.series_limit {
            Some(_limit) => self.heads.is_no_overflow(alloc, key),
            None => Ok(true),
        }
    }

    /// The last round calls, if it may.
    fn call(&mut self, call: CallLine) -> Result<bool, Memory>
        ensures next { (said : text.Said) → IsKnown said self.old
            → IfOk result (Takes said self.old self.new (text.CallOf (call_line_of call))) }
    {
        if !self.has_handle(&call) {
            return Ok(false);
        }
        let Some(samples_left) = self.samples_left.checked_sub(call.act.samples()) else {
            return Ok(false);
        };
        let Some(round) = self.rounds.last_mut() else {
            return Ok(false);
        };
        round.calls.push(call)?;
        self.samples_left = samples_left;
        Ok(true)
    }

    /// Whether the call's handle is that of a register line, of the call's kind.
    fn has_handle(&self, call: &CallLine) -> bool
        ensures { (said : text.Said) → IsKnown said self.now
            → IsTrue result ↔ HasHandle (registered (script_so_far self.now)) (call_line_of call.now) }
    {
        match self.kinds.get(call.handle as usize) {
            Some(kind) => *kind == call.act.kind(),
            None => false,
        }
    }
}
