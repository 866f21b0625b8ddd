// Minutes: where a directive starts, and a span.
ghost use Rattle.std.specs.Prelude.{◌≡◌};
ghost use Rattle.directive.specs.Matching.{in_minutes};
ghost use Rattle.validation_meaning.specs.Search.{start};

use directive::Directive;

// The first minute from the clock on at which the directive can match.
pub fn first_minute(d: &Directive, clock: u32) -> u32
    ensures { result ≡ start clock d.now }
{
    d.from.max(clock)
}

// from <= minute < until
pub fn within(from: u32, until: u32, minute: u32) -> bool
    ensures { result ≡ in_minutes from until minute }
{
    from <= minute && minute < until
}
