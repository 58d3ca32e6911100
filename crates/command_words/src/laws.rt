//! What is proved of the definitions.

ghost use Rattle.std.specs.Prelude.{◌≡◌, ◌≢◌, ◌↔◌, ◌≤◌, ℕ, List, [], ◌∷◌, None, Some, codes, false, option_map};
ghost use Rattle.std.specs.List.{AllByRecursion};
ghost use Rattle.clap.specs.Words.{fault_of};
ghost use Rattle.command_words.specs.Command.{command_of, gen, grant, run, serve};
ghost use Rattle.command_words.specs.Program.{greatest_amount, greatest_asks, greatest_each, greatest_port, greatest_seed, greatest_workers, program_app};
ghost use Rattle.command_words.specs.Table.{begins_with_hyphen, plain_command, workers_said};

/// Words are no command exactly where clap's parse of them answers a fault.
pub fn faults_alone_are_no_command()
    ensures { (words : List (List ℕ)) → (command_of words ≡ None) ↔ (fault_of program_app words ≢ []) }
{}

/// The workers of a run are in range.
pub fn workers_are_in_range()
    ensures { (words : List (List ℕ)) (catalog key : List ℕ) (workers : ℕ) → command_of words ≡ Some (run catalog key workers) →
        (1 ≤ workers) × (workers ≤ greatest_workers) }
{}

/// The amount of a grant is in range.
pub fn grants_are_in_range()
    ensures { (words : List (List ℕ)) (catalog key owner : List ℕ) (amount : ℕ) → command_of words ≡ Some (grant catalog key owner amount) →
        (1 ≤ amount) × (amount ≤ greatest_amount) }
{}

/// The numbers of a service are in range: its workers listen at ports below 2^16.
pub fn services_are_in_range()
    ensures { (words : List (List ℕ)) (catalog key address : List ℕ) (port workers each : ℕ) →
        command_of words ≡ Some (serve catalog key address port workers each) →
        ((1 ≤ port) × (port ≤ greatest_port)) × ((1 ≤ workers) × (workers ≤ greatest_workers)) × ((1 ≤ each) × (each ≤ greatest_each)) }
{}

/// The numbers of a generated run are in range.
pub fn generated_runs_are_in_range()
    ensures { (words : List (List ℕ)) (seed asks workers : ℕ) → command_of words ≡ Some (gen seed asks workers) →
        (seed ≤ greatest_seed) × ((1 ≤ asks) × (asks ≤ greatest_asks)) × ((1 ≤ workers) × (workers ≤ greatest_workers)) }
{}

/// Words of which none begins with a hyphen are the commands of a table.
pub fn plain_words_are_a_table()
    ensures { (words : List (List ℕ)) → AllByRecursion (λ word. begins_with_hyphen word ≡ false) words →
        command_of words ≡ plain_command words }
{}

/// `--workers W` after the words of a run is accepted exactly where W is a number in range.
pub fn workers_are_said_by_a_number()
    ensures { (catalog key text : List ℕ) → begins_with_hyphen catalog ≡ false → begins_with_hyphen key ≡ false → begins_with_hyphen text ≡ false →
        command_of (codes "run" ∷ catalog ∷ key ∷ codes "--workers" ∷ text ∷ []) ≡ option_map (run catalog key) (workers_said text) }
{}
