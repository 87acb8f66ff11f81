// Who has a card.
ghost use Rattle.std.specs.Prelude.{◌≡◌, suc};
ghost use Rattle.std.specs.Option.{option_map};
ghost use Rattle.access.specs.Standing.{lowest};
ghost use Rattle.access.specs.Events.{cards_match, has_card};

use records::User;
use tables::entry::Entry;
use tables::table::Table;

// No Option in a user's record: its eight bytes may be any, and the rule asks of the number.
const NO_CARD: u64 = 0;

// Are the two one card, and is it one at all?
pub fn cards_match(a: u64, b: u64) -> bool
    ensures { result ≡ cards_match a b }
{
    a != NO_CARD && a == b
}

// The user with the lowest number that has the card. Nobody has the card 0.
pub fn holder<T: Table<Body = User>>(users: &T, card: u64) -> Option<&Entry<User>>
    ensures { option_map (λ x. x.now) result ≡ lowest (T.Table.view users.now).at (has_card card) (suc (T.Table.view users.now).high) }
{
    users
        .iter()
        .find(|user| cards_match(card, user.body.card()))
}
