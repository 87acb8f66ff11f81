// Has a card another user already?
ghost use Rattle.std.specs.Prelude.{◌≡◌, suc};
ghost use Rattle.execution.specs.Objections.{another_among};

use access::cards::cards_match;
use records::User;
use tables::table::Table;

// One pass over the users, which ends at the first other one that has the card.
pub(crate) fn another_has<T: Table<Body = User>>(users: &T, number: u32, card: u64) -> bool
    ensures { result ≡ another_among (T.Table.view users.now).at (suc (T.Table.view users.now).high) number card }
{
    users.iter().any(|user| user.number != number && cards_match(card, user.body.card()))
}
