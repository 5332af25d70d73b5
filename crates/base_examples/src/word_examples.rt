//! What the words of a command line ask for, as facts that the check computes.
#![tactic(auto, unfolding(clap::specs::Walk::walked, clap::specs::Walk::bundle_met, clap::specs::Faults::walk_fault, clap::specs::Faults::defaults_fault, clap::specs::Faults::flags_fault))]

ghost use Rattle.std.specs.Prelude.{◌≡◌, ◌++◌, ◌∷◌, [], Some, None, true, false, codes};
ghost use Rattle.command_words.specs.ClientWork.{bots, cancel, collect_batch, spawn_tasks};
ghost use Rattle.command_words.specs.Commands.{bot, checkpoint, client, command_of, serve};
ghost use Rattle.base_examples.specs.WordExamples.{asked_of, no_boards, small_bot, two_boards};

/// A run is to stop only where the flag `--kill` asks for it.
pub fn a_kill_is_asked_for_by_its_flag()
    ensures asked { command_of (asked_of (codes "cancel") ++ codes "--kill" ∷ codes "1a0" ∷ []) ≡ Some (client (codes "http://h") (codes "ana") (cancel true (codes "1a0"))) }
    ensures left_out { command_of (asked_of (codes "cancel") ++ codes "1a0" ∷ []) ≡ Some (client (codes "http://h") (codes "ana") (cancel false (codes "1a0"))) }
{}

/// At most 200 bots are listed.
pub fn at_most_200_bots_are_listed()
    ensures most { command_of (asked_of (codes "bots") ++ codes "--pool" ∷ codes "lab" ∷ codes "--limit" ∷ codes "200" ∷ []) ≡ Some (client (codes "http://h") (codes "ana") (bots (codes "lab") 200)) }
    ensures more { command_of (asked_of (codes "bots") ++ codes "--pool" ∷ codes "lab" ∷ codes "--limit" ∷ codes "201" ∷ []) ≡ None }
{}

/// A batch is sent under a name that must be given.
pub fn a_batch_is_sent_under_its_name()
    ensures named { command_of (asked_of (codes "spawn-tasks") ++ codes "--name" ∷ codes "n1" ∷ codes "lab.jsonl" ∷ []) ≡ Some (client (codes "http://h") (codes "ana") (spawn_tasks (codes "n1") (codes "lab.jsonl"))) }
    ensures left_out { command_of (asked_of (codes "spawn-tasks") ++ codes "lab.jsonl" ∷ []) ≡ None }
{}

/// The results of a batch are asked for as often as that of one task.
pub fn a_batch_is_collected_as_one_task_is()
    ensures by_default { command_of (asked_of (codes "collect-batch") ++ codes "lab.jsonl" ∷ []) ≡ Some (client (codes "http://h") (codes "ana") (collect_batch 1000 5 (codes "lab.jsonl"))) }
    ensures most { command_of (asked_of (codes "collect-batch") ++ codes "--polls" ∷ codes "100000" ∷ codes "--every" ∷ codes "60" ∷ codes "lab.jsonl" ∷ []) ≡ Some (client (codes "http://h") (codes "ana") (collect_batch 100000 60 (codes "lab.jsonl"))) }
    ensures more { command_of (asked_of (codes "collect-batch") ++ codes "--every" ∷ codes "61" ∷ codes "lab.jsonl" ∷ []) ≡ None }
{}

/// A bot has its caches and their bytes by options of their own, and other options by default.
pub fn caches_and_their_bytes_are_two_options()
    ensures { command_of (asked_of (codes "bot") ++ codes "--id" ∷ codes "b1" ∷ codes "--pool" ∷ codes "lab" ∷ codes "--caches" ∷ codes "2" ∷ codes "--cache-bytes" ∷ codes "1000000" ∷ []) ≡ Some (bot small_bot) }
{}

/// A checkpoint needs the settings that name the folder of the records.
pub fn a_checkpoint_needs_its_settings()
    ensures named { command_of (codes "checkpoint" ∷ codes "--settings" ∷ codes "lab.toml" ∷ []) ≡ Some (checkpoint (codes "lab.toml")) }
    ensures left_out { command_of (codes "checkpoint" ∷ []) ≡ None }
{}

/// A server has boards where its words ask for some: at most 8, which listen at an address of their own.
pub fn boards_are_asked_for_by_their_options()
    ensures by_default { command_of (codes "serve" ∷ []) ≡ Some (serve None (codes "127.0.0.1:8080") 1 1000000 no_boards) }
    ensures asked { command_of (codes "serve" ∷ codes "--boards" ∷ codes "2" ∷ codes "--board-address" ∷ codes "h:1" ∷ codes "--board-every" ∷ codes "60" ∷ []) ≡ Some (serve None (codes "127.0.0.1:8080") 1 1000000 two_boards) }
    ensures more { command_of (codes "serve" ∷ codes "--boards" ∷ codes "9" ∷ []) ≡ None }
{}

/// Words that the grammar doesn't take ask for no command.
pub fn other_words_ask_for_nothing()
    ensures no_words { command_of [] ≡ None }
    ensures no_command { command_of (codes "run" ∷ []) ≡ None }
    ensures no_option { command_of (codes "session" ∷ codes "--speed" ∷ codes "2" ∷ []) ≡ None }
{}
