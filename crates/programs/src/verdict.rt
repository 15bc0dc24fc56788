// The verdict program's answer.
ghost use Rattle.programs.specs.JudgeWord.{AnswersWord};

use crate::digits::limit_said;

// Judges a word by an image, of which at most 8,247 bytes need be given, at the limit that digits say, and writes the line. The answer
// is how long that is; there is none where the digits say no limit.
pub fn judge_word(
    image: &[u8],
    word: &[u8],
    digits: &[u8],
    marks: &mut [u8; 65536],
    line: &mut [u8; 105],
) -> Option<usize>
    ensures { AnswersWord image.now word.now digits.now marks.old marks.new line.old line.new result }
{
    let limit = limit_said(digits)?;
    let answer = judge::judge(image, word, limit, marks);
    Some(line::answer_line(answer, line))
}
