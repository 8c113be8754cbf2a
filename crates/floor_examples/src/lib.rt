// Worked examples of the floor's rules: calls over the product's queue rules and centres, with the replies that the rules
// give to them, as a table that the gate computes.
#![tactic(auto)]

ghost use Rattle.floor_examples.specs.House.{AddsAsPromised, PlacesAsPromised};
ghost use Rattle.floor_examples.specs.Table.{worked};
ghost use Rattle.std.specs.Prelude.{◌≡◌, true};

/// Does nothing: the gate computes the table of `specs/`, and each call in it must give the reply that stands beside it.
pub fn worked_examples()
    ensures { worked ≡ true }
{}

/// Does nothing: the accounts and members of the examples' centres are proved to be those that the contracts of
/// `AccountCentre::add` and `FirmCap::place` promise.
pub fn houses_are_made_as_promised()
    ensures accounts { AddsAsPromised }
    ensures members { PlacesAsPromised }
{}
