ghost use Rattle.std.specs.Prelude.{[], ◌∷◌, codes};
ghost use Rattle.play.specs.DoubleScripts.{absence, one_index};
ghost use Rattle.play.specs.LongNames.{limits_of_names_and_keys};
ghost use Rattle.play.specs.MonitorScripts.{alarm, change_by_another_session, monitors, promise_of_another_session, several_closings_in_one_piece};
ghost use Rattle.play.specs.NamesAndEpochs.{old_epochs, words_of_lines};
ghost use Rattle.play.specs.Policies.{final_bindings, policies, policies_in_frames};
ghost use Rattle.play.specs.Rotations.{rotations, rotations_in_frames};
ghost use Rattle.play.specs.Rows.{AreNoCommands, PrintRows, PrintRowsApart, PrintRowsTogether, PrintsUnder, StopsAtLine};
ghost use Rattle.play.specs.SessionScripts.{only_the_operator_closes, refusals_in_frames, two_sessions};
ghost use Rattle.play.specs.Stops.{long_key_line, long_line, other_lines};
ghost use Rattle.play.specs.WorkedScripts.{changes, failed_streams, greatest_epoch, half_messages, limits_of_histories, messages_byte_by_byte, messages_in_one_piece, promises, two_epochs};

/// The worked scripts, computed from the definitions alone: each line prints what stands beside it.
pub fn worked_scripts()
    ensures two_epochs { PrintRows two_epochs }
    ensures promises { PrintRows promises }
    ensures changes { PrintRows changes }
    ensures greatest_epoch { PrintRows greatest_epoch }
    ensures limits_of_histories { PrintRows limits_of_histories }
    ensures half_messages { PrintRows half_messages }
    ensures failed_streams { PrintRows failed_streams }
    ensures messages_in_one_piece { PrintRows messages_in_one_piece }
    ensures messages_byte_by_byte { PrintRows messages_byte_by_byte }
{}

/// The limits of names and keys.
pub fn long_names()
    ensures limits_of_names_and_keys { PrintRowsApart limits_of_names_and_keys }
{}

/// The words of lines, and old epochs.
pub fn names_and_epochs()
    ensures words_of_lines { PrintRows words_of_lines }
    ensures old_epochs { PrintRowsApart old_epochs }
{}

/// Monitors, and the promises that are handed to them.
pub fn monitor_scripts()
    ensures alarm { PrintRows alarm }
    ensures change_by_another_session { PrintRows change_by_another_session }
    ensures absence { PrintRows absence }
    ensures monitors { PrintRowsApart monitors }
    ensures promise_of_another_session { PrintRows promise_of_another_session }
    ensures several_closings_in_one_piece { PrintRowsApart several_closings_in_one_piece }
{}

/// Messages of other sessions, and what is refused to them.
pub fn session_scripts()
    ensures two_sessions { PrintRowsApart two_sessions }
    ensures refusals_in_frames { PrintRowsApart refusals_in_frames }
    ensures only_the_operator_closes { PrintRows only_the_operator_closes }
{}

/// Pages under other nonces.
pub fn rotation_scripts()
    ensures rotations { PrintRows rotations }
    ensures rotations_in_frames { PrintRows rotations_in_frames }
{}

/// Bindings with a policy.
pub fn policy_scripts()
    ensures policies { PrintRows policies }
    ensures policies_in_frames { PrintRows policies_in_frames }
    ensures final_bindings { PrintRowsApart final_bindings }
{}

/// Two names that have one index.
pub fn one_index_scripts()
    ensures one_index { PrintRowsTogether one_index }
{}

/// Lines that are no commands, and a script that stops at one. The last line may lack its LF.
pub fn lines_that_stop()
    ensures lines { AreNoCommands other_lines }
    ensures long_key { AreNoCommands (long_key_line ∷ []) }
    ensures long { AreNoCommands (long_line ∷ []) }
    ensures place { StopsAtLine 4 (codes "head\n# a note\n\nhead \nhead\n") (codes "root 1 after 0" ∷ []) }
    ensures unfinished { PrintsUnder (λ name. name) (codes "head\nhead") (codes "root 1 after 0" ∷ codes "root 1 after 0" ∷ []) }
{}
