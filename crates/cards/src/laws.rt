// The theorems about calls and runs: each function asks for the proof of the theorem that its contract names.
ghost use Rattle.cards.specs.Answers.{SomeAnswer, OneAnswer, GrantedByRule};
ghost use Rattle.cards.specs.Issues.{OneIssueAnswer};
ghost use Rattle.cards.specs.Replies.{OneReply, SomeReply};
ghost use Rattle.cards.specs.Requests.{EachRun as EachRequestRun, RunLaw as RequestRunLaw};
ghost use Rattle.cards.specs.Runs.{EachRun, RunLaw};
ghost use Rattle.cards.specs.Tiny.{PremisesMet};

// Every moment and call has an answer and a moment after it.
#[tactic(auto, using(crate::proofs::Answering::some_answer))]
pub fn every_call_is_answered()
    ensures { SomeAnswer }
{}

// No moment and call has two answers, or two moments after it.
#[tactic(auto, using(crate::proofs::Answering::one_answer))]
pub fn no_call_has_two_answers()
    ensures { OneAnswer }
{}

// A call is granted exactly where the rule grants it.
#[tactic(auto, using(crate::proofs::Answering::granted_by_rule))]
pub fn calls_are_granted_by_the_rule()
    ensures { GrantedByRule }
{}

// Every moment and request has a reply and a moment after it.
#[tactic(auto, using(crate::proofs::Replies::some_reply))]
pub fn every_request_is_replied_to()
    ensures { SomeReply }
{}

// No moment and request has two replies, or two moments after it.
#[tactic(auto, using(crate::proofs::Replies::one_reply))]
pub fn no_request_has_two_replies()
    ensures { OneReply }
{}

// Whatever is asked in whatever order leaves one trail, and no other.
#[tactic(auto, using(crate::proofs::Running::each_run))]
pub fn every_run_leaves_one_trail()
    ensures { EachRun }
{}

// No issue has two answers.
#[tactic(auto, using(crate::proofs::Starting::one_issue_answer))]
pub fn no_issue_has_two_answers()
    ensures { OneIssueAnswer }
{}

// However the places of an accepted plan are begun, finished and put back after its issue, every moment is kept.
pub fn runs_keep_their_law()
    ensures { RunLaw }
{}

// Whatever is called and looked at in whatever order leaves one trail, and no other.
#[tactic(auto, using(crate::proofs::Requesting::each_run))]
pub fn every_run_of_requests_leaves_one_trail()
    ensures { EachRequestRun }
{}

// However the places of an accepted plan are begun, finished, put back and looked at after its issue, every moment is kept.
pub fn runs_of_requests_keep_their_law()
    ensures { RequestRunLaw }
{}

// What the law of runs asks for can be met, with two places in hand together.
#[tactic(auto, using(crate::proofs::Tiny::premises_met))]
pub fn premises_can_be_met()
    ensures { PremisesMet }
{}
