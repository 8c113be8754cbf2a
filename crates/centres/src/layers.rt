// Any number of firm caps over one centre: how many there are is settled at run time.
ghost use Rattle.std.specs.Prelude.{◌≡◌, [], IfOk};
ghost use Rattle.std.specs.Borrow.{Lends, sem};
ghost use Rattle.clearing.specs.Centre.{answered};
ghost use Rattle.centres.specs.Layers.{CapSetOnTop, LayerAdded, PlacedOnTop, caps_no, depth_over, layers_own, with_below};
ghost use Rattle.centres.specs.LayerLaws.{OneMore, SameCentre, capped, denies_over, shallow_over};
ghost use Rattle.centres.specs.declared.firm_table.FirmTable.{FirmTable};
ghost use Rattle.centres.specs.declared.layers.Layers.{Layers};
ghost use Rattle.centres.specs.contracts.layers.Layers.{the_row};
ghost use Rattle.std.proofs.Common.{rules};

use crate::firm_cap::{FirmCap, is_over};
use crate::firm_table::FirmTable;
use clearing::cause::{Cause, Denial, one_up};
use clearing::centre::{Centre, Unsettled};
use clearing::grant::Grant;
use clearing::line::Line;
use clearing::side::Side;
use std::alloc::{AllocError, Global};

/// Firm caps one over the other, the lowest first, over a centre (docs/CENTRE.md, section 9). With none it is as that centre.
#[derive(Drop)]
pub struct Layers<C> {
    heap: Global,
    below: C,
    tables: Vec<FirmTable>,
}

impl<C: Centre> Layers<C> {
    /// A centre with no layer over it yet.
    pub fn new(heap: Global, below: C) -> Layers<C>
        ensures below { result.below ≡ below }
        ensures tables { result.tables.items ≡ [] }
    {
        Layers {
            heap,
            below,
            tables: Vec::new(heap),
        }
    }

    /// The centre below all layers.
    pub fn below(&self) -> &C
        ensures { result.now ≡ self.now.below }
    {
        &self.below
    }

    /// Lends the centre below all layers. The layers stay as they are.
    pub fn below_mut(&mut self) -> &mut C
        ensures* lends { sem 𝓛 (Lends (the_row C.row) C.row self.entry result (with_below self.old)) }
        ensures value { result.now ≡ self.old.below }
    {
        &mut self.below
    }

    /// The tables of the layers, the lowest first.
    pub fn tables(&self) -> &[FirmTable]
        ensures { result.now ≡ self.now.tables.items }
    {
        self.tables.as_slice()
    }

    /// Puts a layer over all others, with no members, where each firm's cap is 0. Only this asks for memory.
    #[tactic(auto, using(crate::proofs::Tops::tops))]
    pub fn add_layer(&mut self) -> Result<(), AllocError>
        ensures { LayerAdded self.old self.new result }
    {
        let table = FirmTable::new(self.heap)?;
        self.tables.push(table)?;
        Ok(())
    }

    /// Places an account in a firm of the highest layer. With no layer it is cause 6, at the depth of the centre below.
    #[tactic(auto, using(crate::proofs::Tops::tops))]
    pub fn place(&mut self, account: i64, firm: u64) -> Result<(), Denial>
        ensures { PlacedOnTop (C.Centre.depth self.old.below) self.old account firm self.new result }
    {
        let depth = self.depth();
        let Some(top) = self.tables.last_mut() else {
            return Err(Denial::new(Cause::BadSetting, depth));
        };
        top.place(account, firm)
            .map_err(|cause| Denial::new(cause, depth))
    }

    /// Sets the cap of a firm of the highest layer. With no layer it is cause 6, at the depth of the centre below.
    #[tactic(auto, using(crate::proofs::Tops::tops))]
    pub fn set_cap(&mut self, firm: u64, cap: u64) -> Result<(), Denial>
        ensures { CapSetOnTop (C.Centre.depth self.old.below) self.old firm cap self.new result }
    {
        let depth = self.depth();
        let Some(top) = self.tables.last_mut() else {
            return Err(Denial::new(Cause::BadSetting, depth));
        };
        top.set_cap(firm, cap)
            .map_err(|cause| Denial::new(cause, depth))
    }

    // A no by cause 4 of the lowest layer where the account's firm would pass its cap with the new lots.
    fn within_caps(&self, account: i64, lots: u64) -> Result<(), Denial>
        ensures { result ≡ answered (caps_no self.now.tables.items (C.Centre.depth self.now.below) (C.Centre.lines self.now.below) account lots) }
    {
        let mut depth = self.below.depth();
        for firms in &self.tables {
            depth = one_up(depth);
            if is_over(&self.below, firms, account, lots) {
                return Err(Denial::new(Cause::OverFirmCap, depth));
            }
        }
        Ok(())
    }
}

impl<C: Centre> Centre for Layers<C> {
    ghost lines = { λ s. C.Centre.lines s.below };

    ghost own = { λ s. layers_own (C.Centre.own s.below) (C.Centre.depth s.below) s.tables.items };

    ghost depth = { λ s. depth_over s.tables.items (C.Centre.depth s.below) };

    // The members with their firms and the caps of each layer, and the same below.
    ghost same_settings = { λ s t. (s.tables.items ≡ t.tables.items) × C.Centre.same_settings s.below t.below };

    ghost sound = { Prim.search rules };

    ghost denies = { λ s L a d n. denies_over s.tables.items _ L a n _ (C.Centre.shallow s.below) (C.Centre.denies s.below L a d n) };

    ghost shallow = { λ s. shallow_over s.tables.items _ (C.Centre.shallow s.below) };

    ghost same_own = { Prim.search rules };

    ghost same_depth = { Prim.search rules };

    ghost same_self = { Prim.search rules };

    ghost same_on = { Prim.search rules };

    fn depth(&self) -> u8 {
        let mut depth = self.below.depth();
        for _ in &self.tables {
            depth = one_up(depth);
        }
        depth
    }

    fn question(&self, account: i64, side: Side, lots: u64) -> Result<(), Denial> {
        self.below.question(account, side, lots)?;
        self.within_caps(account, lots)
    }

    fn reserve(&mut self, account: i64, side: Side, lots: u64) -> Result<Grant, Denial> {
        if let Err(over) = self.within_caps(account, lots) {
            self.below.question(account, side, lots)?;
            return Err(over);
        }
        self.below.reserve(account, side, lots)
    }

    fn settle(&mut self, grant: Grant, lots: u64) -> Result<Grant, Unsettled> {
        self.below.settle(grant, lots)
    }

    fn give_back(&mut self, grant: Grant) -> Result<(), Denial> {
        self.below.give_back(grant)
    }

    fn line(&self, account: i64) -> Option<Line> {
        self.below.line(account)
    }
}

/// Layers are nested firm caps: with none there is the centre below, and one more is a firm cap over the others. Lines, own
/// rule and depth are the same.
pub fn layers_are_firm_caps<C: Centre>()
    ensures none { (s : Layers C) → s.tables.items ≡ [] → SameCentre ⟦<Layers<C> as Centre>⟧ s ⟦<C as Centre>⟧ s.below }
    ensures more { (s u : Layers C) (t : FirmTable) → OneMore s t u → SameCentre ⟦<Layers<C> as Centre>⟧ u ⟦<FirmCap<Layers<C>> as Centre>⟧ (capped s t) }
{}
