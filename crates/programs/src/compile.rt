// The compile program's answer.
ghost use Rattle.programs.specs.CompileText.{AnswersText};

use crate::Answered;

// Compiles a text, of which at most 4,097 bytes need be given, and writes the line. The buffers have their lengths by their types.
// By a match: that a refusal has no image is what an edit turns.
pub fn compile_text(text: &[u8], image: &mut [u8; 8246], line: &mut [u8; 66]) -> Answered
    ensures { AnswersText text.now image.old image.new line.old line.new result }
{
    let answer = compiler::compile(text, image);
    let length = line::compile_line(answer, line);
    match answer {
        Ok(sizes) => Answered {
            image: Some(sizes.bytes),
            line: length,
        },
        Err(_) => Answered {
            image: None,
            line: length,
        },
    }
}
