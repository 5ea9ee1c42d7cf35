//! What follows from the definitions of the answers, for every program and every session.
ghost use Rattle.std.specs.Prelude.{◌≡◌, ℕ, Bool, List, length, Option, [], ◌∷◌, ◌++◌, ◌≢◌, ◌↔◌, ◌≤◌, map, true, false, slice_get, slice_index_or, Ok, Err, Some, None};
ghost use Rattle.std.specs.List.{All};
ghost use Rattle.re_commands.specs.Commanding.{commanded};
ghost use Rattle.re_outside.specs.Moment.{Throughout};
ghost use Rattle.re_outside.specs.Outside.{Seen};
ghost use Rattle.re_outside.specs.Port.{past_in};
ghost use Rattle.re_print.specs.Canonical.{word_text};
ghost use Rattle.re_prop.specs.Touched.{is_replicated_at};
ghost use Rattle.re_session.specs.Acts.{Acts, DoneLine, said_by};
ghost use Rattle.re_session.specs.Begins.{Begins};
ghost use Rattle.re_session.specs.Fares.{Fares};
ghost use Rattle.re_session.specs.Histories.{Asks, HaveSame, IsEntry, IsStoppedFor, LacksDevice, LacksPacket, last_set, needed_running, settler_of};
ghost use Rattle.re_session.specs.LineAnswers.{fault_code, line_after, line_answer, line_text, lines_after, texts};
ghost use Rattle.re_session.specs.Stops.{GoesOn, Stops};
ghost use Rattle.re_terms.specs.Admission.{device_count};
ghost use Rattle.re_terms.specs.CausalWorlds.{IsCausalWorld};
ghost use Rattle.re_terms.specs.Cells.{cell_place};
ghost use Rattle.re_terms.specs.Dependencies.{graph_of, support};
ghost use Rattle.re_terms.specs.DeviceWorlds.{World, Outcome, blank_world, Fine, Memory, Failed, BadStore, OtherProgram, calls_files, device_of, device_state, reads_store, recovered, refusal, settled_number, taken, takes_no_more};
ghost use Rattle.re_terms.specs.Entries.{Merge, turn_entry};
ghost use Rattle.re_terms.specs.Lines.{Done, number_told};
ghost use Rattle.re_terms.specs.Limits.{OperationFault, updates_fault};
ghost use Rattle.re_terms.specs.Meaning.{meaning};
ghost use Rattle.re_terms.specs.Programs.{IsProgram};
ghost use Rattle.re_terms.specs.Runs.{plain_view};
ghost use Rattle.re_terms.specs.Shapes.{shape_of};
ghost use Rattle.re_terms.specs.SignalWords.{names_environment, no_word, signal_word};
ghost use Rattle.re_terms.specs.Untouched.{HasSettled};
ghost use Rattle.re_terms.specs.Updates.{Update};
ghost use Rattle.re_terms.specs.Worlds.{PlainAnswer, Entered, Settled, Up, Refused, StoppedAt, BadFile, limit_code};
ghost use Rattle.re_terms.specs.declared.entry.Admitted.{Admitted};
ghost use Rattle.re_terms.specs.declared.expr.Expr.{Expr};
ghost use Rattle.re_terms.specs.declared.program.Decl.{Decl};
ghost use Rattle.re_terms.specs.declared.program.Program.{Program};
ghost use Rattle.re_terms.specs.declared.word.Kind.{Kind};
ghost use Rattle.re_terms.specs.declared.word.Word.{Word};
ghost use Rattle.re_world.specs.Images.{Restores};
ghost use Rattle.re_world.specs.Standing.{IsWorldOf};
ghost use Rattle.re_world.specs.State.{WorldState};

use re_commands::CommandFault;
use re_terms::{Body, Command};

/// What lines that are done one behind the other say is what the definition has them say, in each world that the devices and files
/// are before them; and behind them devices and files are the world that is behind these lines.
pub fn session_law()
    ensures says { (p : Program) (lines : List DoneLine) (before after : WorldState) (old new : Seen) (w : World) → old.told ≡ true → Acts p lines before after old new → IsWorldOf p w before old →
        said_by p lines ≡ texts p w (map (λ (l : DoneLine). l.line) lines) (map (λ (l : DoneLine). l.outcome) lines) }
    ensures world { (p : Program) (lines : List DoneLine) (before after : WorldState) (old new : Seen) (w : World) → old.told ≡ true → Acts p lines before after old new → IsWorldOf p w before old →
        IsWorldOf p (lines_after p w (map (λ (l : DoneLine). l.line) lines) (map (λ (l : DoneLine). l.outcome) lines)) after new }
{}

/// At each moment of lines that are done one behind the other, whatever a stop leaves of the files of all devices restores to the world
/// behind the first of these lines, with the next one's command under way or none; what was said until then are the answers to these first
/// lines, all but the last whole; and the files hold whatever was acknowledged in it.
pub fn stop_law()
    ensures { (p : Program) (lines : List DoneLine) (before after : WorldState) (old new : Seen) (w : World) → old.told ≡ true → Acts p lines before after old new → IsWorldOf p w before old →
        Throughout (past_in 0 old) (past_in 0 new) (Stops p w lines (past_in 0 old)) }
{}

/// Lines that are done over files which stand for a world find no store that is bad or another program's; and where no count of faults
/// has risen, each of them fared well, or memory ran out for it.
pub fn fares_law()
    ensures { (p : Program) (lines : List DoneLine) (before after : WorldState) (old new : Seen) (w : World) → IsProgram p → old.told ≡ true → Acts p lines before after old new → IsWorldOf p w before old → Fares lines old new }
{}

/// Blank files are files over which a session may begin, in the world of no entry.
pub fn blank_law()
    ensures { (p : Program) (s : Seen) → IsProgram p → s.told ≡ true → s.trace ≡ [] → ((d f : ℕ) → s.start d f ≡ []) → Begins p (blank_world p) s }
{}

/// Files that restore to a world are files over which a session may begin: the update log behind them goes on, and each device begins in
/// the state after the entries that its files hold, at the number of the last. So what a stop left of one run meets what the next one asks of its files.
pub fn next_run_law()
    ensures { (p : Program) (w : World) (under_way : Option Done) (files : ℕ → ℕ → List ℕ) (restored : Restores p w under_way files) (s : Seen) →
        IsProgram p → s.told ≡ true → s.trace ≡ [] → s.start ≡ files → GoesOn p w under_way files restored s }
{}

/// A get of a var says the word to which the last of the device's entries set it, settled or not, and the word at the start of the
/// session where none did; where the device is up and isn't stopped.
pub fn var_law()
    ensures { (p : Program) (w : World) (line : List ℕ) (device id : ℕ) (d : Decl) (kind : Kind) (start : Word) (region : ℕ) →
        commanded p line ≡ Ok (Some (Command.Get device id)) → w.up device ≡ true → w.stop device ≡ None →
        slice_get p.decls.items id ≡ Some d → d.body ≡ Body.Var kind start region →
        line_text p w (commanded p line) Fine
        ≡ word_text p (last_set (w.settled device ++ w.unsettled device) id (slice_index_or (w.base device).words (cell_place p.decls.items id) no_word)) ++ 10 ∷ [] }
{}

/// A get of a signal says the word of its expression over the words that gets of its names would say, where the device is up
/// and isn't stopped.
pub fn signal_law()
    ensures { (p : Program) (w : World) (line : List ℕ) (device id : ℕ) (d : Decl) (kind : Kind) (expr : Expr) → IsProgram p →
        commanded p line ≡ Ok (Some (Command.Get device id)) → w.up device ≡ true → w.stop device ≡ None →
        slice_get p.decls.items id ≡ Some d → d.body ≡ Body.Signal kind expr →
        line_text p w (commanded p line) Fine
        ≡ word_text p (meaning expr (names_environment p.decls.items (plain_view p (device_state p w device)) (signal_word p (device_state p w device).words (plain_view p (device_state p w device))) None None)) ++ 10 ∷ [] }
{}

/// Want of memory aside, the codes 20 to 25 are said of the lines with these faults, and of no others. No answer is given
/// to lines without a command, and to no others; and where memory ran out, the code 36 is said of each line that has one.
pub fn refusal_law()
    ensures no_command { (p : Program) (w : World) (line : List ℕ) (o : Outcome) (f : CommandFault) → f ≢ CommandFault.Memory →
        (line_answer p w (commanded p line) o ≡ Some (Refused (fault_code f))) ↔ ((commanded p line ≡ Err f) × (o ≢ Memory)) }
    ensures no_answer { (p : Program) (w : World) (line : List ℕ) (o : Outcome) →
        (line_answer p w (commanded p line) o ≡ None) ↔ (commanded p line ≡ Ok None) }
    ensures memory { (p : Program) (w : World) (line : List ℕ) (o : Outcome) →
        (line_answer p w (commanded p line) o ≡ Some (Refused 36)) ↔ ((o ≡ Memory) × (commanded p line ≢ Ok None)) }
{}

/// Where a turn fares well, it is refused with the code 29 exactly where its device is up, isn't stopped and takes no more, and with
/// the code of a limit exactly where it takes more and an operation of the turn would pass that limit first. No line but a turn, settled
/// or not, and a delivery is refused with the codes 29 to 32.
pub fn limit_law()
    ensures full { (p : Program) (w : World) (line : List ℕ) (device : ℕ) (turn : Admitted) → commanded p line ≡ Ok (Some (Command.Turn device turn)) →
        (line_answer p w (commanded p line) Fine ≡ Some (Refused 29))
        ↔ ((w.up device ≡ true) × (w.stop device ≡ None) × (takes_no_more w device ≡ true)) }
    ensures limits { (p : Program) (w : World) (line : List ℕ) (device : ℕ) (turn : Admitted) (f : OperationFault) → commanded p line ≡ Ok (Some (Command.Turn device turn)) →
        (line_answer p w (commanded p line) Fine ≡ Some (Refused (limit_code f)))
        ↔ ((w.up device ≡ true) × (w.stop device ≡ None) × (takes_no_more w device ≡ false) × (updates_fault (shape_of p) device turn.turn.ops.items (taken w device) ≡ Some f)) }
    ensures only { (p : Program) (w : World) (line : List ℕ) (o : Outcome) (code : ℕ) → 29 ≤ code → code ≤ 32 →
        line_answer p w (commanded p line) o ≡ Some (Refused code) → IsEntry (commanded p line) }
{}

/// The codes of commands that rest on packets and devices are said of lines for which memory was there, the first that comes of these:
/// 28 exactly where the packet isn't there; 26 where the device that has to be up is down, and 27 where the one to restart is up; `no 34 at m`
/// where the device that has to run is stopped since its call m; 35 of a send where all packets are made, and 38 of an unsettled turn of a
/// device that takes more and has as many unsettled entries as it may have. 33, 37 and 39 come of commands that none of the refusals
/// hinders, and exactly where a file call failed, or a restart found a bad store or another program's. No crash, restart or hex is
/// answered `no 34`.
pub fn code_law()
    ensures packet { (p : Program) (w : World) (line : List ℕ) (o : Outcome) →
        (line_answer p w (commanded p line) o ≡ Some (Refused 28)) ↔ ((o ≢ Memory) × Asks (commanded p line) (LacksPacket w)) }
    ensures down { (p : Program) (w : World) (line : List ℕ) (o : Outcome) →
        (line_answer p w (commanded p line) o ≡ Some (Refused 26)) ↔ ((o ≢ Memory) × Asks (commanded p line) (λ c. (LacksPacket w c → ⊥) × LacksDevice w c)) }
    ensures up { (p : Program) (w : World) (line : List ℕ) (o : Outcome) →
        (line_answer p w (commanded p line) o ≡ Some (Refused 27)) ↔ ((o ≢ Memory) × (device : ℕ) × (commanded p line ≡ Ok (Some (Command.Restart device))) × (w.up device ≡ true)) }
    ensures stopped { (p : Program) (w : World) (line : List ℕ) (o : Outcome) (call : ℕ) →
        (line_answer p w (commanded p line) o ≡ Some (StoppedAt call)) ↔ ((o ≢ Memory) × Asks (commanded p line) (λ c. (LacksPacket w c → ⊥) × (LacksDevice w c → ⊥) × IsStoppedFor w call c)) }
    ensures never_stopped { (p : Program) (w : World) (line : List ℕ) (o : Outcome) (c : Command) (call : ℕ) → commanded p line ≡ Ok (Some c) → needed_running c ≡ None →
        line_answer p w (commanded p line) o ≢ Some (StoppedAt call) }
    ensures packets { (p : Program) (w : World) (line : List ℕ) (o : Outcome) →
        (line_answer p w (commanded p line) o ≡ Some (Refused 35))
        ↔ ((o ≢ Memory) × (device : ℕ) × (commanded p line ≡ Ok (Some (Command.Send device))) × (w.up device ≡ true) × (w.stop device ≡ None) × (10000 ≤ length w.packets)) }
    ensures unsettled { (p : Program) (w : World) (line : List ℕ) (o : Outcome) →
        (line_answer p w (commanded p line) o ≡ Some (Refused 38))
        ↔ ((o ≢ Memory) × (device : ℕ) × (turn : Admitted) × (commanded p line ≡ Ok (Some (Command.Lazy device turn))) × (w.up device ≡ true) × (w.stop device ≡ None) × (takes_no_more w device ≡ false) × (8 ≤ length (w.unsettled device))) }
    ensures failed { (p : Program) (w : World) (line : List ℕ) (o : Outcome) →
        (line_answer p w (commanded p line) o ≡ Some (Refused 33))
        ↔ Asks (commanded p line) (λ c. (refusal p w c ≡ None) × (calls_files w c ≡ true) × (at : ℕ) × (gate_open : Bool) × (o ≡ Failed at gate_open)) }
    ensures bad { (p : Program) (w : World) (line : List ℕ) (o : Outcome) (file place : ℕ) →
        (line_answer p w (commanded p line) o ≡ Some (BadFile file place))
        ↔ Asks (commanded p line) (λ c. (refusal p w c ≡ None) × (reads_store c ≡ true) × (o ≡ BadStore file place)) }
    ensures other { (p : Program) (w : World) (line : List ℕ) (o : Outcome) →
        (line_answer p w (commanded p line) o ≡ Some (Refused 39))
        ↔ Asks (commanded p line) (λ c. (refusal p w c ≡ None) × (reads_store c ≡ true) × (o ≡ OtherProgram)) }
{}

/// What is settled of a device grows by lines so, and in no other way: a turn or a delivery that is answered `ok N` settles the unsettled
/// entries and behind them its own, a settling the unsettled ones, and a restart those in doubt that read as there. The number N of
/// `ok N`, `settled N` and `up N` is that of the last settled entry.
pub fn settled_law()
    ensures turn { (p : Program) (w : World) (line : List ℕ) (o : Outcome) (device : ℕ) (turn : Admitted) (n : ℕ) →
        commanded p line ≡ Ok (Some (Command.Turn device turn)) → line_answer p w (commanded p line) o ≡ Some (Entered n) →
        HasSettled device (w.unsettled device ++ turn_entry turn ∷ []) w (line_after p w (commanded p line) o) }
    ensures deliver { (p : Program) (w : World) (line : List ℕ) (o : Outcome) (device k n : ℕ) →
        commanded p line ≡ Ok (Some (Command.Deliver k device)) → line_answer p w (commanded p line) o ≡ Some (Entered n) →
        (packet : List Update) × (slice_get w.packets k ≡ Some packet) × HasSettled device (w.unsettled device ++ Merge packet ∷ []) w (line_after p w (commanded p line) o) }
    ensures settle { (p : Program) (w : World) (line : List ℕ) (o : Outcome) (device n : ℕ) →
        commanded p line ≡ Ok (Some (Command.Settle device)) → line_answer p w (commanded p line) o ≡ Some (Settled n) →
        HasSettled device (w.unsettled device) w (line_after p w (commanded p line) o) }
    ensures restart { (p : Program) (w : World) (line : List ℕ) (o : Outcome) (device n : ℕ) →
        commanded p line ≡ Ok (Some (Command.Restart device)) → line_answer p w (commanded p line) o ≡ Some (Up n) →
        HasSettled device (recovered w device) w (line_after p w (commanded p line) o) }
    ensures number { (p : Program) (w : World) (line : List ℕ) (o : Outcome) (c : Command) (device : ℕ) (answer : PlainAnswer) (n : ℕ) →
        commanded p line ≡ Ok (Some c) → device_of c ≡ Some device → line_answer p w (commanded p line) o ≡ Some answer → number_told answer ≡ Some n →
        settled_number (line_after p w (commanded p line) o) device ≡ n }
    ensures others { (p : Program) (w : World) (line : List ℕ) (o : Outcome) (device : ℕ) →
        settler_of (commanded p line) (line_answer p w (commanded p line) o) ≢ Some device →
        (line_after p w (commanded p line) o).settled device ≡ w.settled device }
{}

/// Two devices that are up and not stopped and that have taken in the same updates, in whatever order, say the same of a replicated cell,
/// and of a signal whose support holds replicated cells alone.
pub fn agree_law()
    ensures cell { (p : Program) (w : World) (line other : List ℕ) (a b id : ℕ) → IsCausalWorld (device_count p.decls.items) w → HaveSame w a b →
        commanded p line ≡ Ok (Some (Command.Get a id)) → commanded p other ≡ Ok (Some (Command.Get b id)) →
        is_replicated_at p.decls.items id ≡ true →
        line_text p w (commanded p line) Fine ≡ line_text p w (commanded p other) Fine }
    ensures signal { (p : Program) (w : World) (line other : List ℕ) (a b id : ℕ) (d : Decl) (kind : Kind) (expr : Expr) → IsProgram p → IsCausalWorld (device_count p.decls.items) w → HaveSame w a b →
        commanded p line ≡ Ok (Some (Command.Get a id)) → commanded p other ≡ Ok (Some (Command.Get b id)) →
        slice_get p.decls.items id ≡ Some d → d.body ≡ Body.Signal kind expr →
        All (λ cell. is_replicated_at p.decls.items cell ≡ true) (support (graph_of p.decls.items) id) →
        line_text p w (commanded p line) Fine ≡ line_text p w (commanded p other) Fine }
{}
