//! The ways in which tokens are taken: by calls, by a sink, and by batches.

ghost use Rattle.std.specs.Prelude.{◌≡◌};

use crate::digest::digest_t;
use std::alloc::{AllocError, Global};
use std::mem::replace;
use yaml_scan::{
    unnamed_yaml_token_t_data, yaml_encoding_t, yaml_lent_scalar_t, yaml_parser_has_token,
    yaml_parser_peek, yaml_parser_scan, yaml_parser_skip, yaml_parser_t, yaml_scan_next_to,
    yaml_scan_to, yaml_token_sink_t, yaml_token_t,
};

/// How many tokens a batch has room for.
const BATCH: u64 = 256;

/// The usual key limit, in bytes.
const KEY_LIMIT: u32 = 1024;

fn is_end(token: &yaml_token_t) -> bool {
    matches!(token.token_data, unnamed_yaml_token_t_data::STREAM_END)
}

/// Takes all tokens of an input, call by call.
pub fn by_calls(alloc: Global, input: &[u8], digest: &mut digest_t) {
    let mut parser = yaml_parser_t::new(alloc, input, yaml_encoding_t::YAML_ANY_ENCODING);
    'tokens: for _ in 0..u64::MAX {
        match yaml_parser_scan(&mut parser) {
            Ok(token) => {
                digest.put_returned(&token);
                if is_end(&token) {
                    return;
                }
            }
            Err(fault) => return digest.put_fault(&fault),
        }
    }
}

/// Takes the next token as a parser of events does: looks at it, and takes or skips it. `true` if more may come.
fn peek_one(parser: &mut yaml_parser_t, digest: &mut digest_t) -> bool {
    let (is_last, is_scalar) = match yaml_parser_peek(parser) {
        Ok(token) => {
            digest.put_returned(token);
            (
                is_end(token),
                matches!(
                    token.token_data,
                    unnamed_yaml_token_t_data::SCALAR { value: _, style: _ }
                ),
            )
        }
        Err(fault) => {
            digest.put_fault(&fault);
            return false;
        }
    };
    if is_scalar {
        match yaml_parser_scan(parser) {
            Ok(token) => digest.put_returned(&token),
            Err(fault) => digest.put_fault(&fault),
        }
    } else {
        skip_one(parser);
    }
    !is_last
}

/// Skips the token that was shown.
fn skip_one(parser: &mut yaml_parser_t) {
    if yaml_parser_has_token(parser) {
        yaml_parser_skip(parser);
    }
}

/// Takes all tokens of an input, each after it was looked at.
pub fn by_peeks(alloc: Global, input: &[u8], digest: &mut digest_t) {
    let mut parser = yaml_parser_t::new(alloc, input, yaml_encoding_t::YAML_ANY_ENCODING);
    'tokens: for _ in 0..u64::MAX {
        if !peek_one(&mut parser, digest) {
            return;
        }
    }
}

/// Takes tokens into a digest, and has room for some more.
#[derive(Drop)]
struct batch_t {
    digest: digest_t,
    left: u64,
}

impl yaml_token_sink_t for batch_t {
    ghost took = { λ _ _ _. Unit {0} };

    ghost may_refuse = { ⊥ };

    ghost within = { λ _. Unit {0} };

    ghost lacks = { λ s count texts. Unit {0} };

    #[inline(always)]
    fn put(&mut self, token: yaml_token_t) -> Result<(), AllocError> {
        self.digest.put_given(&token);
        self.left = self.left.wrapping_sub(1);
        Ok(())
    }

    #[inline(always)]
    fn put_scalar(&mut self, scalar: &yaml_lent_scalar_t) -> Result<(), AllocError> {
        self.digest.put_lent(scalar);
        self.left = self.left.wrapping_sub(1);
        Ok(())
    }

    #[inline(always)]
    fn room(&mut self, alloc: Global) -> Vec<u8> {
        Vec::new(alloc)
    }

    #[inline(always)]
    fn has_room(&self, count: u128, _texts: u128) -> bool {
        count <= self.left as u128
    }

    ghost took_none = { λ _. tt };

    ghost took_more = { λ _ _ _ _ _ _ _. tt };

    ghost within_none = { λ _ _ _ _. tt };
}

/// Takes all tokens of an input by a sink without limits.
pub fn by_sink(alloc: Global, input: &[u8], digest: &mut digest_t) {
    let mut sink = batch_t {
        digest: replace(digest, digest_t::new()),
        left: u64::MAX,
    };
    let any = yaml_encoding_t::YAML_ANY_ENCODING;
    if let Ok(Some(fault)) = yaml_scan_to(alloc, input, any, KEY_LIMIT, &mut sink) {
        sink.digest.put_fault(&fault);
    }
    *digest = sink.digest;
}

/// Fills a batch with the next tokens. `true` if more may come.
fn fill(parser: &mut yaml_parser_t, batch: &mut batch_t) -> bool {
    'tokens: for _ in 0..BATCH {
        match yaml_scan_next_to(parser, batch) {
            Ok(None) => {}
            Ok(Some(token)) => {
                batch.digest.put_returned(&token);
                return !is_end(&token);
            }
            Err(fault) => {
                batch.digest.put_fault(&fault);
                return false;
            }
        }
        if batch.left == 0 {
            return true;
        }
    }
    true
}

/// Takes all tokens of an input in batches.
pub fn by_batches(alloc: Global, input: &[u8], digest: &mut digest_t) {
    let mut parser = yaml_parser_t::new(alloc, input, yaml_encoding_t::YAML_ANY_ENCODING);
    let mut batch = batch_t {
        digest: replace(digest, digest_t::new()),
        left: 0,
    };
    'batches: for _ in 0..u64::MAX {
        batch.left = BATCH;
        if !fill(&mut parser, &mut batch) {
            break;
        }
    }
    *digest = batch.digest;
}
