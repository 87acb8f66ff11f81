// Card numbers as bytes, highest first.
ghost use Rattle.std.specs.Prelude.{◌≡◌, ◌^◌, ◌<◌, length, MatchOption, ◌≢◌};
ghost use Rattle.records.specs.Users.{card_bytes};

// The card of eight bytes.
pub fn from_bytes(bytes: &[u8]) -> Option<u64>
    ensures { MatchOption result (length bytes.now ≢ 8) (λ c. (card_bytes c ≡ bytes.now) × (c < 2 ^ 64)) }
{
    bytes.as_array().map(|bytes| u64::from_be_bytes(*bytes))
}
