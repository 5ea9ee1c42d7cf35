//! The laws of a session's world over several devices: what a command changes, what it leaves, and how the log grows.
ghost use Rattle.std.specs.Prelude.{true, false, Bool, ◌≡◌, ◌≢◌, ◌<◌, ◌≤◌, ◌↔◌, ◌+◌, ◌++◌, ◌∷◌, ℕ, List, [], if◌then◌else◌, nat_lt, Option, None, Some, slice_get, take};
ghost use Rattle.std.specs.List.{sum_by};
ghost use Rattle.re_terms.specs.Admission.{IsCommandOf, device_count};
ghost use Rattle.re_terms.specs.CausalWorlds.{IsCausalWorld};
ghost use Rattle.re_terms.specs.DeviceWorlds.{start_world, World, Outcome, Fine, Memory, Failed, BadStore, OtherProgram, calls_files, device_state, doubt, is_down, is_for, is_refusal, lacks_packet, last_number, merge_fault, reads_store, recovered, refusal, reply, settled_number, settled_state, settled_taken, taken, world_after};
ghost use Rattle.re_terms.specs.Entries.{PlainEntry, Merge, run_taken, run_updates, turn_entry};
ghost use Rattle.re_terms.specs.JointLogs.{Further, all_of, IsOneOf, NoneOf, Follows, AllFollow};
ghost use Rattle.re_terms.specs.Limits.{SetFull};
ghost use Rattle.re_terms.specs.Lines.{Done, acknowledged, worlds_after};
ghost use Rattle.re_terms.specs.Parts.{IsPart, AllFit};
ghost use Rattle.re_terms.specs.Runs.{PlainState};
ghost use Rattle.re_terms.specs.Shapes.{pair_count, shape_of};
ghost use Rattle.re_terms.specs.TakenIn.{IsTakenIn};
ghost use Rattle.re_terms.specs.Untouched.{IsUntouched, HasSettled};
ghost use Rattle.re_terms.specs.Updates.{Update, IsCausalLog, IsIn, count_of};
ghost use Rattle.re_terms.specs.UpdateSets.{union};
ghost use Rattle.re_terms.specs.UpdateStates.{join_states, state_of_updates};
ghost use Rattle.re_terms.specs.Worlds.{PlainAnswer, Entered, Applied, Settled, Up, Refused, BadFile};
ghost use Rattle.re_terms.specs.declared.command.Command.{Command};
ghost use Rattle.re_terms.specs.declared.command.Command.TheVariants as command;
ghost use Rattle.re_terms.specs.declared.entry.Admitted.{Admitted};
ghost use Rattle.re_terms.specs.declared.program.Program.{Program};
ghost use Rattle.re_terms.specs.declared.replicated.Shape.{Shape};

/// A refused command changes nothing, unless a file call failed in it.
pub fn refusal_law()
    ensures { (p : Program) (w : World) (c : Command) (o : Outcome) → is_refusal (reply p w c o) ≡ true → reply p w c o ≢ Refused 33 → world_after p w c o ≡ w }
{}

/// The causes of the answers that the world alone doesn't give: 36 comes exactly where memory ran out; and of a command
/// that isn't refused before, 33 exactly where one of its file calls failed, and 37 and 39 exactly where a restart finds
/// a bad store or another program's.
pub fn cause_law()
    ensures memory { (p : Program) (w : World) (c : Command) (o : Outcome) → (reply p w c o ≡ Refused 36) ↔ (o ≡ Memory) }
    ensures failed { (p : Program) (w : World) (c : Command) (o : Outcome) → (reply p w c o ≡ Refused 33) ↔ ((refusal p w c ≡ None) × (calls_files w c ≡ true) × (at : ℕ) × (gate_open : Bool) × (o ≡ Failed at gate_open)) }
    ensures bad { (p : Program) (w : World) (c : Command) (file place : ℕ) (o : Outcome) → (reply p w c o ≡ BadFile file place) ↔ ((refusal p w c ≡ None) × (reads_store c ≡ true) × (o ≡ BadStore file place)) }
    ensures other { (p : Program) (w : World) (c : Command) (o : Outcome) → (reply p w c o ≡ Refused 39) ↔ ((refusal p w c ≡ None) × (reads_store c ≡ true) × (o ≡ OtherProgram)) }
{}

/// A command leaves every device that it isn't for.
pub fn others_law()
    ensures { (p : Program) (w : World) (c : Command) (o : Outcome) (d : ℕ) → is_for d c ≡ false → IsUntouched d w (world_after p w c o) }
{}

/// A device that is down takes nothing: each of its commands but a restart is refused and changes nothing.
pub fn down_law()
    ensures refused { (p : Program) (w : World) (c : Command) → is_down w c ≡ true → refusal p w c ≡ Some (Refused (if lacks_packet w c then 28 else 26)) }
    ensures unchanged { (p : Program) (w : World) (c : Command) (o : Outcome) → is_down w c ≡ true → world_after p w c o ≡ w }
{}

/// A device's entries are numbered one behind the other: an entry that is answered has the number behind the last one, and
/// is the last one afterwards. `ok N`, `settled N` and `up N` say that N is the last settled one.
pub fn number_law()
    ensures entered { (p : Program) (w : World) (d : ℕ) (c : Command) (o : Outcome) (n : ℕ) → is_for d c ≡ true → reply p w c o ≡ Entered n → (n ≡ last_number w d + 1) × (last_number (world_after p w c o) d ≡ n) × (settled_number (world_after p w c o) d ≡ n) }
    ensures applied { (p : Program) (w : World) (d : ℕ) (c : Command) (o : Outcome) (n : ℕ) → is_for d c ≡ true → reply p w c o ≡ Applied n → (n ≡ last_number w d + 1) × (last_number (world_after p w c o) d ≡ n) }
    ensures settled { (p : Program) (w : World) (d : ℕ) (c : Command) (o : Outcome) (n : ℕ) → is_for d c ≡ true → reply p w c o ≡ Settled n → (n ≡ last_number w d) × (settled_number (world_after p w c o) d ≡ n) }
    ensures up { (p : Program) (w : World) (d : ℕ) (c : Command) (o : Outcome) (n : ℕ) → is_for d c ≡ true → reply p w c o ≡ Up n → (settled_number (world_after p w c o) d ≡ n) × (last_number (world_after p w c o) d ≡ n) }
{}

/// What a command that isn't refused settles: a turn and a merge all unsettled entries and behind them their own, `settle`
/// all unsettled ones, and a restart those in doubt that the files hold. `lazy` settles none and adds an unsettled one.
pub fn settling_law()
    ensures turn { (p : Program) (w : World) (d : ℕ) (t : Admitted) → refusal p w (command.Turn d t) ≡ None → HasSettled d (w.unsettled d ++ turn_entry t ∷ []) w (world_after p w (command.Turn d t) Fine) }
    ensures merge { (p : Program) (w : World) (d k : ℕ) (packet : List Update) → slice_get w.packets k ≡ Some packet → refusal p w (command.Deliver k d) ≡ None → HasSettled d (w.unsettled d ++ Merge packet ∷ []) w (world_after p w (command.Deliver k d) Fine) }
    ensures settle { (p : Program) (w : World) (d : ℕ) → refusal p w (command.Settle d) ≡ None → HasSettled d (w.unsettled d) w (world_after p w (command.Settle d) Fine) }
    ensures restart { (p : Program) (w : World) (d : ℕ) → refusal p w (command.Restart d) ≡ None → HasSettled d (recovered w d) w (world_after p w (command.Restart d) Fine) }
    ensures lazy_settled { (p : Program) (w : World) (d : ℕ) (t : Admitted) → refusal p w (command.Lazy d t) ≡ None → (world_after p w (command.Lazy d t) Fine).settled ≡ w.settled }
    ensures lazy_unsettled { (p : Program) (w : World) (d : ℕ) (t : Admitted) → refusal p w (command.Lazy d t) ≡ None → (world_after p w (command.Lazy d t) Fine).unsettled d ≡ w.unsettled d ++ turn_entry t ∷ [] }
{}

/// What a failed file call leaves of a command that isn't refused: a commit puts the entries of its record in doubt and
/// stops the device, which keeps what it has in memory; a restart changes nothing.
pub fn failure_law()
    ensures turn { (p : Program) (w : World) (d : ℕ) (t : Admitted) (at : ℕ) (gate_open : Bool) → refusal p w (command.Turn d t) ≡ None → world_after p w (command.Turn d t) (Failed at gate_open) ≡ doubt w d (w.unsettled d ++ turn_entry t ∷ []) at gate_open }
    ensures merge { (p : Program) (w : World) (d k : ℕ) (packet : List Update) (at : ℕ) (gate_open : Bool) → slice_get w.packets k ≡ Some packet → refusal p w (command.Deliver k d) ≡ None → world_after p w (command.Deliver k d) (Failed at gate_open) ≡ doubt w d (w.unsettled d ++ Merge packet ∷ []) at gate_open }
    ensures settle { (p : Program) (w : World) (d at : ℕ) (gate_open : Bool) → refusal p w (command.Settle d) ≡ None → calls_files w (command.Settle d) ≡ true → world_after p w (command.Settle d) (Failed at gate_open) ≡ doubt w d (w.unsettled d) at gate_open }
    ensures restart { (p : Program) (w : World) (d at : ℕ) (gate_open : Bool) → world_after p w (command.Restart d) (Failed at gate_open) ≡ w }
{}

/// The updates that a device has taken in rest on its entries alone, whatever their words are.
pub fn run_law()
    ensures settled { (p : Program) (w : World) (d : ℕ) → (settled_state p w d).taken ≡ settled_taken w d }
    ensures all { (p : Program) (w : World) (d : ℕ) → (device_state p w d).taken ≡ taken w d }
{}

/// What a device has taken in of a log stays so where the log grows by updates of other devices, and where the device
/// merges a part of the log; its entries' updates are its own, and with them the log grows by what the device makes.
pub fn taken_growth_law()
    ensures part { (log more us : List Update) → IsCausalLog (log ++ more) → IsPart log us → IsPart (log ++ more) us }
    ensures device { (log us : List Update) (d : ℕ) → IsTakenIn log d us → IsPart log us }
    ensures others { (log more us : List Update) (d : ℕ) → IsCausalLog (log ++ more) → ((u : Update) → IsIn u more → u.dot.device ≢ d) → IsTakenIn log d us → IsTakenIn (log ++ more) d us }
    ensures merged { (log us packet : List Update) (d : ℕ) → IsTakenIn log d us → IsPart log packet → IsTakenIn log d (union us packet) }
    ensures merged_state { (shape : Shape) (log us packet : List Update) (d : ℕ) → IsTakenIn log d us → IsPart log packet → state_of_updates shape (union us packet) ≡ join_states (state_of_updates shape us) (state_of_updates shape packet) }
    ensures entries { (log us : List Update) (d : ℕ) (entries : List PlainEntry) → IsTakenIn log d us → AllFit log entries → IsTakenIn (log ++ run_updates d us entries) d (run_taken d us entries) }
    ensures follow { (log us : List Update) (d : ℕ) (entries : List PlainEntry) → IsTakenIn log d us → AllFit log entries → Follows log (record { device = d; updates = run_updates d us entries }) }
{}

/// A log with further updates of several devices behind it has of each device the log's and the device's own.
pub fn joint_count_law()
    ensures some { (log : List Update) (xs : List Further) (x : Further) → AllFollow log xs → IsOneOf x xs → count_of x.device (log ++ all_of xs) ≡ count_of x.device log + count_of x.device x.updates }
    ensures none { (log : List Update) (xs : List Further) (d : ℕ) → AllFollow log xs → NoneOf d xs → count_of d (log ++ all_of xs) ≡ count_of d log }
{}

/// A merge is refused where the sets of the joined states have more than 1,024 pairs together.
pub fn merge_limit_law()
    ensures { (p : Program) (log us packet : List Update) (d : ℕ) → IsTakenIn log d us → IsPart log packet → merge_fault p us packet ≡ (if nat_lt 1024 (sum_by pair_count (join_states (state_of_updates (shape_of p) us) (state_of_updates (shape_of p) packet)).cells.items) then Some SetFull else None) }
{}

/// A session over files that represent a causal log has a world of one causal log at the start, and each command leaves it
/// so.
pub fn causal_world_law()
    ensures start { (p : Program) (base : ℕ → PlainState) (base_number : ℕ → ℕ) (log : List Update) → device_count p.decls.items ≤ 16 → IsCausalLog log → ((u : Update) → IsIn u log → u.dot.device < device_count p.decls.items) → ((d : ℕ) → d < device_count p.decls.items → IsTakenIn log d (base d).taken) → IsCausalWorld (device_count p.decls.items) (start_world p base base_number log) }
    ensures step { (p : Program) (w : World) (c : Command) (o : Outcome) → IsCommandOf p c → IsCausalWorld (device_count p.decls.items) w → IsCausalWorld (device_count p.decls.items) (world_after p w c o) }
{}

/// A settled entry stays settled, and whatever is acknowledged of a device is among its settled entries.
pub fn acknowledged_law()
    ensures settled { (p : Program) (w : World) (c : Command) (o : Outcome) (d : ℕ) → (more : List PlainEntry) × ((world_after p w c o).settled d ≡ w.settled d ++ more) }
    ensures acknowledged { (p : Program) (w : World) (done : List Done) (answered d : ℕ) → acknowledged p w done answered d ≤ settled_number (worlds_after p w (take answered done)) d }
{}
