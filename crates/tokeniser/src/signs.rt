// Which sign one byte or two bytes are.
ghost use Rattle.tokeniser.specs.Inside.Tokenising.{IsSign};

use text::Sign;

pub fn sign_of(bytes: &[u8]) -> Option<Sign>
    ensures { IsSign bytes.now result }
{
    match bytes {
        b"=" => Some(Sign::Becomes),
        b"==" => Some(Sign::Equals),
        b"!=" => Some(Sign::Differs),
        b"!" => Some(Sign::Not),
        b"&&" => Some(Sign::And),
        b"||" => Some(Sign::Or),
        b"++" => Some(Sign::Increment),
        b"--" => Some(Sign::Decrement),
        b"+=" => Some(Sign::Add),
        b"-=" => Some(Sign::Subtract),
        b"-" => Some(Sign::Minus),
        b"(" => Some(Sign::OpenParen),
        b")" => Some(Sign::CloseParen),
        b"{" => Some(Sign::OpenBrace),
        b"}" => Some(Sign::CloseBrace),
        b"[" => Some(Sign::OpenBracket),
        b"]" => Some(Sign::CloseBracket),
        b"," => Some(Sign::Comma),
        b";" => Some(Sign::Semicolon),
        _ => None,
    }
}
