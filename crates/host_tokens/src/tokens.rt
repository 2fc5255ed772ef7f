//! Tokens for a host: a token is its 64-bit word, so that `to_u64` and `from_u64` change nothing.
ghost use Rattle.std.specs.Prelude.{◌≡◌, eqb};
ghost use Rattle.token.specs.Token.{made, id_of, generation_of, type_of, flags_of};
ghost use Rattle.host_tokens.specs.Answered.{Answers, token_answer};

use answers::Refusal;
use token::CapabilityToken;

/// For C: the answer's number, and the token's word; the word of a refusal is 0.
#[repr(C)]
#[derive(Clone, Copy)]
pub struct TokenAnswer {
    pub answer: u8,
    pub token: u64,
}

impl From<Result<CapabilityToken, Refusal>> for TokenAnswer {
    ghost from_gives = { Answers };

    #[tactic(auto, unfolding(crate::specs::Answered::token_answer))]
    fn from(made: Result<CapabilityToken, Refusal>) -> TokenAnswer {
        match made {
            Ok(token) => TokenAnswer {
                answer: 0,
                token: token.to_u64(),
            },
            Err(refusal) => TokenAnswer {
                answer: u8::from(refusal),
                token: 0,
            },
        }
    }
}

#[unsafe(no_mangle)]
pub extern "C" fn stonespry_token_new(
    id: u64,
    generation: u8,
    cap_type: u8,
    flags: u8,
) -> TokenAnswer
    ensures { result ≡ token_answer (made id generation cap_type flags) }
{
    CapabilityToken::new(id, generation, cap_type, flags).into()
}

#[unsafe(no_mangle)]
pub extern "C" fn stonespry_token_id(token: u64) -> u64
    ensures { result ≡ id_of token }
{
    CapabilityToken::from_u64(token).id()
}

#[unsafe(no_mangle)]
pub extern "C" fn stonespry_token_generation(token: u64) -> u8
    ensures { result ≡ generation_of token }
{
    CapabilityToken::from_u64(token).generation()
}

#[unsafe(no_mangle)]
pub extern "C" fn stonespry_token_cap_type(token: u64) -> u8
    ensures { result ≡ type_of token }
{
    CapabilityToken::from_u64(token).cap_type()
}

#[unsafe(no_mangle)]
pub extern "C" fn stonespry_token_flags(token: u64) -> u8
    ensures { result ≡ flags_of token }
{
    CapabilityToken::from_u64(token).flags()
}

#[unsafe(no_mangle)]
pub extern "C" fn stonespry_token_from_id_and_generation(id: u64, generation: u8) -> TokenAnswer
    ensures { result ≡ token_answer (made id generation 0 0) }
{
    CapabilityToken::from_id_and_generation(id, generation).into()
}

#[unsafe(no_mangle)]
pub extern "C" fn stonespry_token_to_u64(token: u64) -> u64
    ensures { result ≡ token }
{
    CapabilityToken::from_u64(token).to_u64()
}

#[unsafe(no_mangle)]
pub extern "C" fn stonespry_token_from_u64(value: u64) -> u64
    ensures { result ≡ value }
{
    CapabilityToken::from_u64(value).to_u64()
}

#[unsafe(no_mangle)]
pub extern "C" fn stonespry_token_is_null(token: u64) -> bool
    ensures { result ≡ eqb token 0 }
{
    CapabilityToken::from_u64(token).is_null()
}

#[unsafe(no_mangle)]
pub extern "C" fn stonespry_token_null() -> u64
    ensures { result ≡ 0 }
{
    CapabilityToken::null().to_u64()
}

#[unsafe(no_mangle)]
pub extern "C" fn stonespry_token_from_parts(
    id: u64,
    object_id: u64,
    generation: u8,
    metadata: u8,
) -> TokenAnswer
    ensures { result ≡ token_answer (made id generation 0 0) }
{
    CapabilityToken::from_parts(id, object_id, generation, metadata).into()
}
