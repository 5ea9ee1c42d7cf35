//! What can be relied on of the lengths of records and snapshots, and of what two files are to a program.
ghost use Rattle.std.specs.Prelude.{◌≡◌, ◌<◌, ◌≤◌, ◌∷◌, ◌++◌, [], length, List, ℕ};
ghost use Rattle.std.specs.List.{All};
ghost use Rattle.re_outside.specs.Frame.{AreRecords, HasStoreFrame, IsClosed, IsGeneration, IsOlder, IsRecordLength, IsSnapshotLength, Store, front, generation};
ghost use Rattle.re_print.specs.Canonical.{program_text};
ghost use Rattle.re_record.specs.Logs.{HasBytes, IsRecord, IsRecordOf, IsSnapshotOf, IsTurn};
ghost use Rattle.re_record.specs.Restoring.{Opened, AreAccepted, after_all};
ghost use Rattle.re_record.specs.Spellings.{logged_bytes, record_bytes, snapshot_bytes};
ghost use Rattle.re_record.specs.Stores.{AreRecordsOf, HasStore, MayBeOpened, OpensTo, Stored, laid};
ghost use Rattle.re_record.specs.declared.limits.TheConstants.{ENTRY_BYTES, TURN_BYTES, RECORD_BYTES, SNAPSHOT_BYTES};
ghost use Rattle.re_record.specs.declared.snapshots.Snapshot.{Snapshot};
ghost use Rattle.re_terms.specs.Programs.{IsProgram};
ghost use Rattle.re_terms.specs.Shapes.{IsShape, shape_of};
ghost use Rattle.re_terms.specs.WordKinds.{IsStateOf};
ghost use Rattle.re_terms.specs.declared.entry.Logged.{Logged};
ghost use Rattle.re_terms.specs.declared.entry.State.{State};
ghost use Rattle.re_terms.specs.declared.program.Program.{Program};
ghost use Rattle.re_terms.specs.declared.replicated.Shape.{Shape};

/// An entry takes at most 29,317 bytes with its changes, and a turn at most 3,526. So the record of up to eight turns and one
/// further entry, which a device commits together, takes at most 57,526, and may stand in a file. So may a snapshot, which
/// takes at most 94,360 and begins with its generation.
pub fn length_law()
    ensures entry { (shape : Shape) (l : Logged) → IsShape shape → HasBytes shape l → length (logged_bytes shape.devices l) ≤ ENTRY_BYTES }
    ensures turn { (shape : Shape) (l : Logged) → HasBytes shape l → IsTurn l.entry → length (logged_bytes shape.devices l) ≤ TURN_BYTES }
    ensures committed { (shape : Shape) (turns : List Logged) (last : Logged) → IsShape shape → length turns ≤ 8 → All (HasBytes shape) turns → All (λ l. IsTurn l.entry) turns → HasBytes shape last → length (record_bytes shape.devices (turns ++ last ∷ [])) ≤ RECORD_BYTES }
    ensures fits { (shape : Shape) (turns : List Logged) (last : Logged) → IsShape shape → length turns ≤ 8 → All (HasBytes shape) turns → All (λ l. IsTurn l.entry) turns → HasBytes shape last → IsRecordLength (length (record_bytes shape.devices (turns ++ last ∷ []))) }
    ensures snapshot { (p : Program) (device g number : ℕ) (s : State) → IsProgram p → length (program_text p) ≤ 65536 → IsStateOf p s → length (snapshot_bytes p device g number s) ≤ SNAPSHOT_BYTES }
    ensures laid { (p : Program) (device g number : ℕ) (s : State) → IsProgram p → length (program_text p) ≤ 65536 → IsStateOf p s → IsSnapshotLength (length (snapshot_bytes p device g number s)) }
    ensures generation { (p : Program) (device g number : ℕ) (s : State) → IsGeneration g → generation (snapshot_bytes p device g number s) ≡ g }
{}

/// What a record of a program may hold has bytes, and so can be written.
pub fn record_law()
    ensures { (p : Program) (entries : List Logged) → IsRecordOf p entries → IsRecord (shape_of p) entries }
{}

/// What two files open to, and what leaves it as it is.
///
/// A file of a snapshot and records, each behind an open gate, opens to the snapshot's state with the entries done in order,
/// where it counts: whichever closed gate and whatever bytes stand behind them. One record more, whose entries no limit
/// refuses, opens to these entries done too. Two files are one thing alone, so that they open to one state and entry number.
pub fn store_law()
    ensures first { (p : Program) (device g : ℕ) (s : Snapshot) (bodies : List (List ℕ)) (rest second : List ℕ) (entries : List Logged) → IsProgram p → length (program_text p) ≤ 65536 → IsGeneration g → IsSnapshotOf p s.number s.state → AreRecords bodies → MayBeOpened g bodies → IsClosed rest → IsOlder second g → AreRecordsOf p device (laid s) bodies entries → OpensTo p device (front (snapshot_bytes p device g s.number s.state) bodies ++ rest) second (after_all p device entries (laid s)) }
    ensures second { (p : Program) (device g : ℕ) (s : Snapshot) (bodies : List (List ℕ)) (rest first : List ℕ) (entries : List Logged) → IsProgram p → length (program_text p) ≤ 65536 → IsGeneration g → IsSnapshotOf p s.number s.state → AreRecords bodies → MayBeOpened g bodies → IsClosed rest → IsOlder first g → AreRecordsOf p device (laid s) bodies entries → OpensTo p device first (front (snapshot_bytes p device g s.number s.state) bodies ++ rest) (after_all p device entries (laid s)) }
    ensures more { (p : Program) (device : ℕ) (o : Opened) (bodies : List (List ℕ)) (entries next : List Logged) → AreRecordsOf p device o bodies entries → IsRecordOf p next → AreAccepted p device (after_all p device entries o) next → AreRecordsOf p device o (bodies ++ record_bytes (shape_of p).devices next ∷ []) (entries ++ next) }
    ensures done { (p : Program) (device : ℕ) (entries others : List Logged) (o : Opened) → after_all p device (entries ++ others) o ≡ after_all p device others (after_all p device entries o) }
    // Bytes from the first closed gate of the file that counts on don't matter, as long as a closed gate stands there.
    ensures behind_first { (p : Program) (device : ℕ) (body : List ℕ) (bodies : List (List ℕ)) (rest other second : List ℕ) (x : Stored) → HasStoreFrame (front body bodies ++ rest) second (Store 0 body bodies) → IsClosed other → HasStore p device (front body bodies ++ rest) second x → HasStore p device (front body bodies ++ other) second x }
    ensures behind_second { (p : Program) (device : ℕ) (body : List ℕ) (bodies : List (List ℕ)) (rest other first : List ℕ) (x : Stored) → HasStoreFrame first (front body bodies ++ rest) (Store 1 body bodies) → IsClosed other → HasStore p device first (front body bodies ++ rest) x → HasStore p device first (front body bodies ++ other) x }
    // Two files are one thing alone: blank, refused at one place of one file, another program's, or one store.
    ensures only { (p : Program) (device : ℕ) (first second : List ℕ) (x y : Stored) → IsProgram p → device < 256 → HasStore p device first second x → HasStore p device first second y → x ≡ y }
    ensures one { (p : Program) (device : ℕ) (first second : List ℕ) (o other : Opened) → IsProgram p → device < 256 → OpensTo p device first second o → OpensTo p device first second other → o ≡ other }
{}
