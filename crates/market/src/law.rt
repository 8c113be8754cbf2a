// The law over runs, proved of the definitions: the gate asks for a theorem's proof where a contract names it.
ghost use Rattle.market.specs.Law.{EveryRunKeepsTheLaw, LawPinsTheRegister};
ghost use Rattle.market.specs.Wrong.{
  ExchangedTradesAreRefused,
  HeadOnlyIsRefused,
  IdleCentreIsRefused,
  InventedLotsAreRefused,
};

/// Every run of the six calls keeps the law, at its start and after each call.
pub fn runs_keep_the_law()
    ensures { EveryRunKeepsTheLaw }
{}

/// Which trades stand in the register, and in which sequence, is settled by the law, the history and the lots that each entry
/// traded.
pub fn law_pins_the_register()
    ensures { LawPinsTheRegister }
{}

/// What four wrong engines would answer breaks the law, whatever their queues and lines are otherwise.
pub fn wrong_engines_break_the_law()
    ensures head { HeadOnlyIsRefused }
    ensures idle { IdleCentreIsRefused }
    ensures invented { InventedLotsAreRefused }
    ensures exchanged { ExchangedTradesAreRefused }
{}
