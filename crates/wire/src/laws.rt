// The laws of the format: each function carries statements of specs/Laws.antt, and does nothing.
ghost use Rattle.wire.specs.Laws.{CallsReadBack, CallsWrittenBack, CallsDiffer, CallsCease};
ghost use Rattle.wire.specs.Laws.{AnswersReadBack, AnswersWrittenBack, AnswersCease};

// Reading what was written gives the same call, and the same answer.
#[tactic(auto, using(crate::proofs::Format::calls_read_back, crate::proofs::Format::answers_read_back))]
pub fn read_back()
    ensures calls { CallsReadBack }
    ensures answers { AnswersReadBack }
{}

// What is read as a call that is not garbled, or as an answer, has just the bytes of that call or answer.
#[tactic(auto, using(crate::proofs::Format::calls_written_back, crate::proofs::Format::answers_written_back))]
pub fn written_back()
    ensures calls { CallsWrittenBack }
    ensures answers { AnswersWrittenBack }
{}

// Two calls with the same bytes are the same.
#[tactic(auto, using(crate::proofs::Format::calls_differ))]
pub fn calls_differ()
    ensures { CallsDiffer }
{}

// A row that is no call, or no answer, ceases to be one at the first byte that does not fit.
pub fn cease()
    ensures calls { CallsCease }
    ensures answers { AnswersCease }
{}
