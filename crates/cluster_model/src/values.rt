//! The values of keys.

ghost use Rattle.std.specs.Prelude.{◌≡◌};
ghost use Rattle.score.specs.ScoreText.{read_score};
ghost use Rattle.crm_parse.specs.Values.{bool_of, count_of, role_of, time_of};
ghost use Rattle.cluster_model.specs.Metas.{read_as};

use crm_parse::{Kv, RoleName, bool_of, count_of, role_of, time_of, value_of};
use score::Score;

pub fn score_at(key: &[u8], pairs: &[Kv]) -> Option<Score>
    ensures { result ≡ read_as read_score key.now pairs.now }
{
    Score::from_text(value_of(key, pairs)?)
}

/// A time in milliseconds.
pub fn time_at(key: &[u8], pairs: &[Kv]) -> Option<u32>
    ensures { result ≡ read_as time_of key.now pairs.now }
{
    time_of(value_of(key, pairs)?)
}

pub fn role_at(key: &[u8], pairs: &[Kv]) -> Option<RoleName>
    ensures { result ≡ read_as role_of key.now pairs.now }
{
    role_of(value_of(key, pairs)?)
}

/// What the first pair of a key says, where it says yes or no.
pub fn bool_at(key: &[u8], pairs: &[Kv]) -> Option<bool>
    ensures { result ≡ read_as bool_of key.now pairs.now }
{
    bool_of(value_of(key, pairs)?)
}

/// The number that the first pair of a key says, where it says a count: digits of a value up to 1,000,000.
pub fn count_at(key: &[u8], pairs: &[Kv]) -> Option<u32>
    ensures { result ≡ read_as count_of key.now pairs.now }
{
    count_of(value_of(key, pairs)?)
}
