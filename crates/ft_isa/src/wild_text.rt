//! The text of wild answers.
ghost use Rattle.std.specs.Prelude.{◌≡◌, IfOk, IfErr, MatchResult, List};
ghost use Rattle.ft_isa.specs.Reading.{next_answer, whole_answer};
ghost use Rattle.ft_isa.specs.PlanText.{IsWildText, IsWildError};

use crate::number_text::with_digit;
use crate::plan::Wild;
use std::alloc::Global;
use thiserror::Error;

/// Why a text spells no wild answers.
#[derive(Clone, Copy, Debug, PartialEq, Eq, Error)]
pub enum WildError {
    /// The text does not spell wild answers. `at` is the length of its longest prefix that is also a prefix of some
    /// text that does.
    #[error("invalid wild answers at byte {at}")]
    Form { at: usize },
    /// Memory ran out.
    #[error("out of memory")]
    NoMemory,
}

/// The maximum number of answers in a text.
const WILD_LIMIT: usize = 4_096;

/// What has been read of a wild answer.
#[derive(Clone, Copy)]
enum AnswerRead {
    Empty,
    Number(u64),
    S,
    St,
    Sto,
    Stop,
}

impl AnswerRead {
    /// The answer after one more byte; `None` if no answer's text begins like this.
    fn next(self, byte: u8) -> Option<AnswerRead>
        ensures { result ≡ next_answer self byte }
    {
        match (self, byte) {
            (AnswerRead::Empty, b's') => Some(AnswerRead::S),
            (AnswerRead::Empty, _) => {
                let word = with_digit(None, byte)?;
                Some(AnswerRead::Number(word))
            }
            (AnswerRead::Number(word), _) => {
                let word = with_digit(Some(word), byte)?;
                Some(AnswerRead::Number(word))
            }
            (AnswerRead::S, b't') => Some(AnswerRead::St),
            (AnswerRead::St, b'o') => Some(AnswerRead::Sto),
            (AnswerRead::Sto, b'p') => Some(AnswerRead::Stop),
            _ => None,
        }
    }

    /// The answer, if its text was read completely.
    fn whole(self) -> Option<Wild>
        ensures { result ≡ whole_answer self }
    {
        match self {
            AnswerRead::Number(word) => Some(Wild::Word(word)),
            AnswerRead::Stop => Some(Wild::Stop),
            _ => None,
        }
    }
}

/// Reads the text of wild answers: one to 4,096 parts with single commas between them, each a number
/// text or `stop`. A number text is `0`, or a digit from 1 to 9 followed by digits, with a value below
/// 2^64. Any other text is refused as `Form`.
pub fn read_wild(alloc: Global, text: &[u8]) -> Result<Vec<Wild>, WildError>
    ensures ok { IfOk result (λ wild. IsWildText text.now wild.items) }
    ensures exact { (answers : List Wild) → IsWildText text.now answers → MatchResult result (λ wild. wild.items ≡ answers) (λ e. e ≡ WildError.NoMemory) }
    ensures err { IfErr result (IsWildError text.now) }
{
    let mut answers = Vec::new(alloc);
    let mut read = AnswerRead::Empty;
    for (at, byte) in text.iter().enumerate() {
        if *byte == b',' {
            // There is no room for an answer after this comma.
            if answers.len() + 1 >= WILD_LIMIT {
                return Err(WildError::Form { at });
            }
            let Some(answer) = read.whole() else {
                return Err(WildError::Form { at });
            };
            answers.push(answer).map_err(|_| WildError::NoMemory)?;
            read = AnswerRead::Empty;
        } else {
            let Some(next) = read.next(*byte) else {
                return Err(WildError::Form { at });
            };
            read = next;
        }
    }
    let Some(answer) = read.whole() else {
        return Err(WildError::Form { at: text.len() });
    };
    answers.push(answer).map_err(|_| WildError::NoMemory)?;
    Ok(answers)
}
