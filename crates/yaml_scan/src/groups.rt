//! Groups: what a step hands out, which is a token and what comes before it.
ghost use Rattle.std.specs.Prelude.{◌≡◌, ◌+◌, ◌-◌, ◌<◌, ◌∷◌, [], ◌&&◌, take, drop, ◌^◌};
ghost use Rattle.yaml_text.specs.declared.types.yaml_encoding_t.{yaml_encoding_t};
ghost use Rattle.yaml_text.specs.Token.{data_of, token_of};
ghost use Rattle.yaml_scan.specs.Token.{at_mark};
ghost use Rattle.yaml_scan.specs.declared.groups.lead_t.TheVariants.{NOTHING};
ghost use Rattle.yaml_scan.specs.inside.Queue.{leads, lead_tokens};
ghost use Rattle.yaml_scan.specs.Groups.{Token, handed_out};

use yaml_text::{unnamed_yaml_token_t_data, yaml_mark_t, yaml_token_t};

/// The start of a block collection, or none.
#[derive(Clone, Copy)]
pub(crate) enum block_t {
    NONE,
    SEQUENCE,
    MAPPING,
}

/// A token with one mark.
#[inline(always)]
pub(crate) fn token_at(says: unnamed_yaml_token_t_data, mark: yaml_mark_t) -> yaml_token_t
    ensures { token_of result ≡ at_mark (data_of says) mark }
{
    yaml_token_t {
        token_data: says,
        start_mark: mark,
        end_mark: mark,
    }
}

/// What is handed out before the token of a group.
#[derive(Clone, Copy)]
pub(crate) enum lead_t {
    NOTHING,
    END,
    SEQUENCE_START,
    MAPPING_START,
    KEY,
}

/// The token of a lead, or an empty one if there is none.
#[inline(always)]
pub(crate) fn lead_token(lead: lead_t, mark: yaml_mark_t) -> yaml_token_t
    ensures { (e : yaml_encoding_t) (x : Token) → lead_tokens lead mark ≡ x ∷ [] → token_of result ≡ handed_out e x }
{
    let says = match lead {
        lead_t::END => unnamed_yaml_token_t_data::BLOCK_END,
        lead_t::SEQUENCE_START => unnamed_yaml_token_t_data::BLOCK_SEQUENCE_START,
        lead_t::MAPPING_START => unnamed_yaml_token_t_data::BLOCK_MAPPING_START,
        lead_t::KEY => unnamed_yaml_token_t_data::KEY,
        lead_t::NOTHING => unnamed_yaml_token_t_data::NO_TOKEN,
    };
    token_at(says, mark)
}

/// What a step hands out: block ends, the start of a block collection and a key, all at the start of its token, and
/// then its token.
#[derive(Drop)]
pub(crate) struct group_t {
    pub ends: usize,
    pub opens: block_t,
    pub key: bool,
    pub token: yaml_token_t,
}

impl group_t {
    /// What is handed out next of a group before its token.
    #[inline(always)]
    pub(crate) fn next_lead(&self) -> lead_t
        ensures { lead_tokens result self.now.token.start_mark ≡ take 1 (leads self.now) }
    {
        if self.ends > 0 {
            return lead_t::END;
        }
        match self.opens {
            block_t::SEQUENCE => lead_t::SEQUENCE_START,
            block_t::MAPPING => lead_t::MAPPING_START,
            block_t::NONE => if self.key {
                lead_t::KEY
            } else {
                lead_t::NOTHING
            },
        }
    }

    /// Takes what is handed out next of a group before its token, if it hands out anything before that.
    #[inline(always)]
    pub(crate) fn take_lead(&mut self) -> lead_t
        ensures lead { lead_tokens result self.old.token.start_mark ≡ take 1 (leads self.old) }
        ensures leads { leads self.new ≡ drop 1 (leads self.old) }
        ensures token { self.new.token ≡ self.old.token }
        ensures none { result ≡ NOTHING → self.new ≡ self.old }
    {
        if self.ends > 0 {
            self.ends -= 1;
            return lead_t::END;
        }
        match self.opens {
            block_t::SEQUENCE => {
                self.opens = block_t::NONE;
                lead_t::SEQUENCE_START
            }
            block_t::MAPPING => {
                self.opens = block_t::NONE;
                lead_t::MAPPING_START
            }
            block_t::NONE => if self.key {
                self.key = false;
                lead_t::KEY
            } else {
                lead_t::NOTHING
            },
        }
    }
}
