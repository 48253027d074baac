//! What `check` answers of what `allocate` wrote, and `recheck` of what `reclear` wrote; and how a
//! job ends behind its steps. A function does nothing; its contract is the law.

ghost use Rattle.std.specs.Prelude.{◌≡◌, ◌∷◌, ◌≤◌, [], ℕ, List, Option, Contains, length};
ghost use Rattle.desk_outside.specs.Files.{Files};
ghost use Rattle.series_model.specs.Submissions.{SubmissionView};
ghost use Rattle.cert_format.specs.declared.cert.Certificate.{Certificate as CertificateValue};
ghost use Rattle.holding_book.specs.Starts.{start_book};
ghost use Rattle.command_words.specs.Words.{Word};
ghost use Rattle.command_words.specs.declared.job.Job.{Job as JobValue};
ghost use Rattle.desk_commands.specs.Reports.{JournalRefusal};
ghost use Rattle.desk_commands.specs.Judgements.{NamedBytes, Accepts};
ghost use Rattle.desk_commands.specs.Judgements.{certificate_form, valid_certificate};
ghost use Rattle.desk_commands.specs.Judgements.{extra_form, valid_extra};
ghost use Rattle.desk_commands.specs.Steps.{Step, AllPass};
ghost use Rattle.desk_commands.specs.Jobs.{IsAllocation, HoldsChecked};
ghost use Rattle.desk_commands.specs.Jobs.{allocate_steps, check_steps, checked_files};
ghost use Rattle.desk_commands.specs.Jobs.{IsReclearing, HoldsRechecked};
ghost use Rattle.desk_commands.specs.Jobs.{reclear_steps, recheck_steps, rechecked_files};
ghost use Rattle.desk_commands.specs.Jobs.{steps_of, finishing_of, Works, IsWithoutJournal};
ghost use Rattle.desk_commands.specs.Outside.{OutsideChange, IsStill};
ghost use Rattle.desk_commands.specs.Desk.{World};
ghost use Rattle.desk_commands.specs.Leads.{Leads, MemoryLead};
ghost use Rattle.desk_commands.specs.Stops.{StopLeads};
ghost use Rattle.desk_commands.specs.Ends.{IsDoneBy, StopsUnopened, JobStopsBy};
ghost use Rattle.desk_commands.specs.declared.stop.Stop.{Stop as StopValue};
ghost use Rattle.desk_commands.specs.declared.files.TheConstants.{LONGEST_FILE, LONGEST_CERT_FILE};
ghost use Rattle.desk_commands.specs.declared.trial.TheConstants.{TRIAL_NODES};

/// The numbers that clauses of `desk` cite by name: at most 4 MiB are read of a file that is no
/// certificate, and 512 MiB of a certificate; a trial has 10,000 nodes for each stage.
pub fn cited_numbers()
    ensures file { LONGEST_FILE ≡ 4194304 }
    ensures certificate { LONGEST_CERT_FILE ≡ 536870912 }
    ensures trial { TRIAL_NODES ≡ 10000 }
{}

/// A certificate that `allocate` wrote is in its form, valid for the season of the same two files,
/// and no longer than what `check` reads of one. So each step of `check` passes wherever the
/// three files are held, under whatever names, and by the clauses `complete` and `handed` of `desk`
/// it says YES, with status 0, where no call fails and memory suffices.
pub fn written_certificates()
    ensures form { (names : List Word) (nodes : ℕ)
        (capacity requests certificate replies : NamedBytes) (status : ℕ) (text : List ℕ) →
        IsAllocation names nodes capacity.bytes requests.bytes (certificate ∷ replies ∷ []) status
        text → Accepts certificate_form (capacity ∷ requests ∷ certificate ∷ []) }
    ensures valid { (names : List Word) (nodes : ℕ)
        (capacity requests certificate replies : NamedBytes) (status : ℕ) (text : List ℕ) →
        IsAllocation names nodes capacity.bytes requests.bytes (certificate ∷ replies ∷ []) status
        text → Accepts valid_certificate (capacity ∷ requests ∷ certificate ∷ []) }
    ensures short { (names : List Word) (nodes : ℕ)
        (capacity requests certificate replies : NamedBytes) (status : ℕ) (text : List ℕ) →
        IsAllocation names nodes capacity.bytes requests.bytes (certificate ∷ replies ∷ []) status
        text → length certificate.bytes ≤ LONGEST_CERT_FILE }
    // What `allocate` read and wrote passes each step of a check.
    ensures checked { (names asked : List Word) (nodes : ℕ)
        (capacity requests certificate replies : NamedBytes) (status : ℕ) (text : List ℕ)
        (files told : Option Files) →
        AllPass files (allocate_steps names) (capacity ∷ requests ∷ []) →
        IsAllocation names nodes capacity.bytes requests.bytes (certificate ∷ replies ∷ []) status
        text →
        HoldsChecked told asked capacity.bytes requests.bytes certificate.bytes →
        AllPass told (check_steps asked)
        (checked_files asked capacity.bytes requests.bytes certificate.bytes) }
{}

/// A stage that `reclear` wrote is in its form, has a proof on the problem of the lines that wait
/// after the same four files, and is no longer than what `recheck` reads of one. So each step of
/// `recheck` passes wherever the five files are held, under whatever names, and by the clauses
/// `complete` and `handed` of `desk` it says YES, with status 0, where no call fails and memory
/// suffices.
pub fn written_stages()
    ensures form { (names : List Word) (nodes : ℕ)
        (capacity requests certificate asks extra replies : NamedBytes) (status : ℕ)
        (text : List ℕ) →
        IsReclearing names nodes capacity.bytes requests.bytes certificate.bytes asks.bytes
        (extra ∷ replies ∷ []) status text →
        Accepts extra_form (capacity ∷ requests ∷ certificate ∷ asks ∷ extra ∷ []) }
    ensures valid { (names : List Word) (nodes : ℕ)
        (capacity requests certificate asks extra replies : NamedBytes) (status : ℕ)
        (text : List ℕ) →
        IsReclearing names nodes capacity.bytes requests.bytes certificate.bytes asks.bytes
        (extra ∷ replies ∷ []) status text →
        Accepts valid_extra (capacity ∷ requests ∷ certificate ∷ asks ∷ extra ∷ []) }
    ensures short { (names : List Word) (nodes : ℕ)
        (capacity requests certificate asks extra replies : NamedBytes) (status : ℕ)
        (text : List ℕ) →
        IsReclearing names nodes capacity.bytes requests.bytes certificate.bytes asks.bytes
        (extra ∷ replies ∷ []) status text → length extra.bytes ≤ LONGEST_CERT_FILE }
    // What `reclear` read and wrote passes each step of a recheck.
    ensures checked { (names asked : List Word) (nodes : ℕ)
        (capacity requests certificate asks extra replies : NamedBytes) (status : ℕ)
        (text : List ℕ) (files told : Option Files) →
        AllPass files (reclear_steps names) (capacity ∷ requests ∷ certificate ∷ asks ∷ []) →
        IsReclearing names nodes capacity.bytes requests.bytes certificate.bytes asks.bytes
        (extra ∷ replies ∷ []) status text →
        HoldsRechecked told asked capacity.bytes requests.bytes certificate.bytes asks.bytes
        extra.bytes →
        AllPass told (recheck_steps asked)
        (rechecked_files asked capacity.bytes requests.bytes certificate.bytes asks.bytes
        extra.bytes) }
{}

/// How a job ends whose steps passed, or stopped at one of them, and nothing was written.
pub fn ended_jobs()
    // Memory may run out at any step.
    ensures memory { (w v : World) (all steps : List Step) (before : List NamedBytes) →
        Leads w all before steps v → MemoryLead w all v }
    // A step stopped, and what is outside is as it was.
    ensures stopped { (names : List Word) (job : JobValue) (w v : World) (change : OutsideChange)
        (stop : StopValue) →
        IsStill change → StopLeads names w (steps_of job) stop v →
        JobStopsBy names job w change stop v }
    // All steps passed, and the work needs no writes.
    ensures read { (job : JobValue) (w v : World) (inputs : List NamedBytes)
        (change : OutsideChange) (status : ℕ) (text : List ℕ) →
        Leads w (steps_of job) inputs [] v → Works job inputs [] change status text →
        IsDoneBy job w change status text v }
    // All steps passed, and the journal was not opened.
    ensures unopened { (job : JobValue) (w v : World) (inputs : List NamedBytes)
        (change : OutsideChange) (why : JournalRefusal) →
        Leads w (steps_of job) inputs [] v → IsWithoutJournal job inputs change why →
        StopsUnopened job w change why v }
    // Work that is done has one of the statuses of its job.
    ensures finishing { (job : JobValue) (inputs writes : List NamedBytes)
        (change : OutsideChange) (status : ℕ) (text : List ℕ) →
        Works job inputs writes change status text → Contains (finishing_of job) status }
{}

/// The book of a certificate has at most a holding for each unit.
pub fn few_holdings()
    ensures { (s : SubmissionView) (c : CertificateValue) →
        length (start_book s c).holdings ≤ length s.units }
{}
