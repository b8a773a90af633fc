//! A law of the texts of answers. The function here does nothing: its contract is the law.
ghost use Rattle.std.specs.Prelude.{◌≡◌};
ghost use Rattle.serde_json.specs.Written.{compact_text};
ghost use Rattle.proto_replies.specs.Data.{AreTimes, answer_data};
ghost use Rattle.proto_replies.specs.Text.{answer_text};
ghost use Rattle.proto_replies.specs.declared.answer.Answer.{Answer as TheAnswer};

/// The pieces by which an answer is written are what `serde_json` writes, with no blanks, for its keys and their values.
pub fn law_of_json()
    ensures { (answer : TheAnswer) → AreTimes answer → answer_text answer ≡ compact_text (answer_data answer) }
{}
