// What a caller may rest on of the texts of answers, as a contract.
ghost use Rattle.script.specs.Answers.{AnswerLaw};

/// The text of each answer is one line, which begins with `ok` or with `error`, and `error NoMemory` is the text of one
/// answer alone.
pub fn answer_law()
    ensures { AnswerLaw }
{}
