// Whether a trade's prices, or a posting's, are too high.
ghost use Rattle.std.specs.Prelude.{◌≡◌};
ghost use Rattle.rules.specs.Initial.{bad_prices};

use money::limits::PRICE_LIMIT;
use money::units::Ticks;

pub fn bad_prices(price: Ticks, fallback: Ticks) -> bool
    ensures { result ≡ bad_prices price fallback }
{
    price.0 > PRICE_LIMIT || fallback.0 > PRICE_LIMIT
}
