//! What holds of the layout, and of the equality that the types derive.
ghost use Rattle.std.specs.Prelude.{◌≡◌, ◌↔◌, IsTrue};
ghost use Rattle.yaml_scan.specs.Seen.{seen_of};
ghost use Rattle.yaml_scan.specs.Laws.{DepthGoesOn, CandidatesGoOn, CandidatesAreNested, AllowedGoesOn, ColumnsGoOn};
ghost use Rattle.yaml_scan.specs.Laws.{ColumnsFall, LevelIsFirst, LevelStays, OfflineGoesOn, CandidateStandsThere};
ghost use Rattle.yaml_scan.specs.Laws.{NeverRevised, FewWait, FewWaitOneStepOn, AllIsHandedOut, LexemesComeInOrder};
ghost use Rattle.yaml_scan.specs.Laws.{EndsNeverOutnumber, AsManyEnds, CutIsLongest, CutIsHistory, CutIsShort};
ghost use Rattle.yaml_scan.specs.Laws.{StepsBeginCut, CutIsOnly};
ghost use Rattle.yaml_scan.specs.TokenLaws.{TokensStandInOrder, KeysAreFollowed, FourTokensAStep};
ghost use Rattle.yaml_scan.specs.SessionLaws.{CourseIsHistory, EndsOrFaults, RefusedHasFault, AcceptedIsCut};
ghost use Rattle.yaml_scan.specs.SessionLaws.{FrontIsCut, TakenAreBeginning, PeeksChangeNothing, NoneIsStuck};
ghost use Rattle.yaml_scan.specs.SessionLaws.{PeekShowsNext, SkipTakesPeeked};
ghost use Rattle.yaml_scan.specs.SessionLaws.{PaceSettles, PaceIsLeast, FewStepsQueued, NearStepIsRefused};
ghost use Rattle.yaml_scan.specs.SessionLaws.{FarStepIsItself, CourseIsRun};
ghost use Rattle.yaml_scan.specs.AnswerLaws.{AnswersStandInOrder, AnswersEndFewer, AnswersEndAll, AnswersFollowKeys};
ghost use Rattle.yaml_scan.specs.AnswerLaws.{AnswersTellLexemes, AnswersTellAll, AnswersTellFault, RefusedTellFault};
ghost use Rattle.yaml_scan.specs.Locality.{StepIsLocal, TokensBeforeRefusal, FaultBeforeRefusal, TextsAreLocal};
ghost use Rattle.yaml_scan.specs.Locality.{TextsKeepOrder, TextStepIsLocal};
ghost use Rattle.yaml_scan.specs.Fed.{CutsDoNotMatter};
ghost use Rattle.yaml_scan.specs.FedCalls.{FedGoesOn};
ghost use Rattle.yaml_scan.specs.Pieces.{PiecesGoOn, RefusedForGood};
ghost use Rattle.yaml_scan.specs.Rests.{AllIsSettledAtRest, BeginningsAreShared};
ghost use Rattle.yaml_scan.specs.inside.TextGoesOn.{RunningGoesOn};
ghost use Rattle.yaml_scan.specs.Unfinished.{FaultGoesOn, StepsGoOn, TokensGoOn};
ghost use Rattle.yaml_scan.specs.Inputs.{InputsKeepOrder, AllStandInOrder, AllEndFewer, AllEndAll, AllFollowKeys};
ghost use Rattle.yaml_scan.specs.Inputs.{LateFaults};
ghost use Rattle.yaml_scan.specs.Words.{AllHaveLines, SessionsHaveLines};
ghost use Rattle.yaml_scan.specs.CountedMarks.{AnswersAreCounted, SessionsAreCounted, ReachIsCounted};
ghost use Rattle.yaml_scan.specs.Puts.{CallsAreSession};
ghost use Rattle.yaml_scan.specs.ReadingOn.{AllIsTold, RestIsTold, ScansReadOn, FaultIsToldOnce, RunsFaultOnce};

use crate::calls::{yaml_answer_t, yaml_call_t};

/// What one lexeme more makes of the depth, the candidates, whether a key is allowed, the open columns and the level: a
/// machine that keeps a slot for each depth and a stack of columns keeps them.
pub fn one_lexeme_more()
    ensures depth { DepthGoesOn }
    ensures candidates { CandidatesGoOn }
    ensures nested { CandidatesAreNested }
    ensures allowed { AllowedGoesOn }
    ensures columns { ColumnsGoOn }
    ensures falling { ColumnsFall }
    ensures level { LevelIsFirst }
    ensures required { LevelStays }
{}

/// One lexeme more puts at most one key, with its block start, into the offline list, in front of its candidate's
/// token, and then its own group.
pub fn offline_goes_on()
    ensures list { OfflineGoesOn }
    ensures candidate { CandidateStandsThere }
{}

/// Tokens that were handed out are never revised: what comes before the earliest live candidate is a beginning of the
/// offline list of every longer list of steps.
pub fn never_revised()
    ensures { NeverRevised }
{}

/// Few lexemes wait for a candidate: from the first token that is not settled on, the tokens are those of at most as
/// many lexemes as the key limit has bytes, and of one more right after a step.
pub fn few_lexemes_wait()
    ensures settled { FewWait }
    ensures one_step_on { FewWaitOneStepOn }
{}

/// After the stream end nothing waits, so all of the offline list is handed out.
pub fn all_is_handed_out()
    ensures { AllIsHandedOut }
{}

/// The steps of a text are a list of steps to which none can be added, every list of steps is a beginning of it, and no
/// other list with a fault or a stream end is one. It has at most as many steps as the text has characters, and two.
pub fn cut_is_longest()
    ensures longest { CutIsLongest }
    ensures beginnings { StepsBeginCut }
    ensures only { CutIsOnly }
    ensures history { CutIsHistory }
    ensures short { CutIsShort }
{}

/// The tokens of the lexemes come in the order of the lexemes in the text.
pub fn lexemes_come_in_order()
    ensures { LexemesComeInOrder }
{}

/// Of the tokens that are returned, all but block ends, block starts and keys whose two marks are equal are, in order,
/// those of STREAM-START and of the first lexemes of the text, or of the front of a refused input. If there is no fault
/// they are those of all its lexemes.
pub fn lexemes_are_returned_in_order()
    ensures answered { AnswersTellLexemes }
    ensures whole { AnswersTellAll }
{}

/// There is no fault exactly if the input is accepted and its cut ends with the stream end. A fault is the reader's,
/// or that of the step after the cut; the cut of a refused input is that of its front.
///
/// A refused input has the fault after the cut of its front, if the place of this is eight or more characters before
/// the front's end, and else the reader's.
pub fn fault_comes_after_the_cut()
    ensures answered { AnswersTellFault }
    ensures refused { RefusedTellFault }
{}

/// Block ends never outnumber block starts, and at the end of a text whose depth is 0 there are equally many.
pub fn block_ends_are_matched()
    ensures beginnings { EndsNeverOutnumber }
    ensures whole { AsManyEnds }
    ensures answered { AnswersEndFewer }
    ensures answered_whole { AnswersEndAll }
{}

/// Tokens are in order: none starts after its end, or ends after the start of the next.
pub fn tokens_stand_in_order()
    ensures list { TokensStandInOrder }
    ensures answered { AnswersStandInOrder }
{}

/// Every key that the layout inserts is followed by its `:`, on its line and within the key limit.
pub fn keys_are_followed()
    ensures list { KeysAreFollowed }
    ensures answered { AnswersFollowKeys }
{}

/// There are in all at most four times as many tokens as steps.
pub fn tokens_are_few()
    ensures { FourTokensAStep }
{}

/// The steps of an input are a history, and end with the stream end or with a fault. An accepted input has the steps
/// and the fault of the cut of its text, and a refused one a beginning of what its front alone would have.
///
/// A step of a refused front that ends or faults fewer than eight characters before the front's end gives the reader's
/// fault, also if it has a fault of its own; every other step is what it is. So the fault of a refused input is the
/// reader's if its first step or the step after its lexemes is near the end, and else that of this step.
pub fn course_of_an_input()
    ensures history { CourseIsHistory }
    ensures ends { EndsOrFaults }
    ensures near { NearStepIsRefused }
    ensures far { FarStepIsItself }
    ensures run { CourseIsRun }
    ensures refused { RefusedHasFault }
    ensures accepted { AcceptedIsCut }
    ensures front { FrontIsCut }
{}

/// After any calls the tokens taken are, in order, a beginning of the list; if none is left and the session is not
/// over, there is a fault.
pub fn taken_tokens_begin_the_list()
    ensures beginning { TakenAreBeginning }
    ensures goes_on { NoneIsStuck }
{}

/// Peeks change nothing: if each skip takes a token that was peeked, the same calls without the peeks, with a scan for
/// each skip, take the same tokens.
pub fn peeks_change_nothing()
    ensures { PeeksChangeNothing }
{}

/// The token that a peek shows is returned by the next scan. If the session is not over, a skip after a peek leaves
/// what a scan leaves.
pub fn peek_shows_what_scan_returns()
    ensures shows { PeekShowsNext }
    ensures skips { SkipTakesPeeked }
{}

/// No more steps are made than the next token needs: as few as settle it, and no fewer than were made before.
pub fn pace_is_least()
    ensures settles { PaceSettles }
    ensures least { PaceIsLeast }
{}

/// After any calls at most as many steps are queued as the key limit has bytes, plus one.
pub fn few_steps_are_queued()
    ensures { FewStepsQueued }
{}

/// A step depends on no character eight or more past its reach, or past its problem, so it is the same for two texts
/// that agree on all characters before. So what is handed out of a refused input before the reader's fault, and an
/// earlier fault, are those of every accepted input that agrees with it.
pub fn step_is_local()
    ensures step { StepIsLocal }
    ensures tokens { TokensBeforeRefusal }
    ensures fault { FaultBeforeRefusal }
    ensures texts { TextsAreLocal }
    ensures text { TextStepIsLocal }
{}

/// What is read and handed out of an unfinished input, and a fault that does not stand for what is to come, are those
/// of every input that goes on from it, accepted or not. So it is of the bytes that came of an input, whatever more
/// comes.
pub fn unfinished_input_goes_on()
    ensures steps { StepsGoOn }
    ensures tokens { TokensGoOn }
    ensures fault { FaultGoesOn }
    ensures bytes { PiecesGoOn }
{}

/// What is wrong with the bytes that came, if no bytes can mend it, is wrong with the whole input, whatever more comes. It
/// is read as these bytes are.
pub fn broken_input_stays_broken()
    ensures { RefusedForGood }
{}

/// A parser that is given its input in pieces is one of the longer input too, once more of it came.
pub fn more_comes()
    ensures { FedGoesOn }
{}

/// Cuts do not matter: if each call gives the next tokens of every input that the bytes so far may begin, the tokens of
/// all calls, joined, are the first of every input that all bytes, joined, may begin.
pub fn cuts_do_not_matter()
    ensures { CutsDoNotMatter }
{}

/// A running scanner of an unfinished text is a running scanner of every text that goes on from it, and has read the
/// same lexemes.
pub fn running_scanner_goes_on()
    ensures { RunningGoesOn }
{}

/// What is read up to eight characters before the end of what two inputs share is read of both. Where no candidate is
/// live all tokens are settled, whatever follows.
pub fn beginnings_are_shared()
    ensures steps { BeginningsAreShared }
    ensures rest { AllIsSettledAtRest }
{}

/// What is read of a decoded text is in order, so the laws that require it hold of every decoded text.
pub fn texts_keep_order()
    ensures { TextsKeepOrder }
{}

/// The laws of tokens, for any bytes and setting: order, block ends, keys; and what is handed out before a late reader
/// fault, and an earlier fault, are those of every accepted input that agrees up to the refused character.
pub fn laws_of_any_input()
    ensures order { InputsKeepOrder }
    ensures tokens { AllStandInOrder }
    ensures block_ends { AllEndFewer }
    ensures whole { AllEndAll }
    ensures keys { AllFollowKeys }
    ensures late { LateFaults }
{}

/// Every token and every fault that is returned can be put in words: the encoding of a stream and the style of a scalar
/// are known, and a fault is of kind memory, or of kind reader or scanner with a problem text.
pub fn answers_have_lines()
    ensures inputs { AllHaveLines }
    ensures sessions { SessionsHaveLines }
{}

/// Every mark that is handed out is counted from the front of the text, so none is between CR and LF. The one exception
/// is the mark of the end of a stream, which is moved to the start of the next line if its column is not 0: a stream
/// end has it, and so have the block ends and the missing `:` found there.
pub fn marks_are_counted()
    ensures inputs { AnswersAreCounted }
    ensures sessions { SessionsAreCounted }
    ensures reach { ReachIsCounted }
{}

/// From any state of a session more scans than there are tokens left take all of these in order, then return the fault
/// once, if there is one, and then empty tokens. So do scans that are made one by one, or a growth was refused in one
/// of them.
pub fn reading_on()
    ensures all { AllIsTold }
    ensures rest { RestIsTold }
    ensures in_turn { ScansReadOn }
{}

/// Whatever the calls, a fault is returned at most once, also if a growth was refused.
pub fn fault_is_told_once()
    ensures sessions { FaultIsToldOnce }
    ensures runs { RunsFaultOnce }
{}

/// A list of calls, each answered on the parser that the one before it left, is answered as the session answers the
/// list; or memory was refused in one of them. Then the answers before it are the session's, its answer is the one
/// fault, and those after it are idle: empty tokens and NOTHING. Each of the two follows from the other.
pub fn calls_in_turn()
    ensures session { CallsAreSession }
{}

/// Calls are equal exactly if they are one call.
pub fn same_calls(a: yaml_call_t, b: yaml_call_t) -> bool
    ensures { IsTrue result ↔ (a ≡ b) }
{
    a == b
}

/// Answers are equal exactly if what can be seen of them is: the variant, with its token, its type and marks, or its
/// fault.
pub fn same_answers(a: &yaml_answer_t, b: &yaml_answer_t) -> bool
    ensures { IsTrue result ↔ (seen_of a.now ≡ seen_of b.now) }
{
    *a == *b
}
