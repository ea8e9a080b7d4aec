//! Laws of zones: at values that meet the facts, covers have the cells, and zones apart share none.

ghost use Rattle.std.specs.Prelude.{◌≡◌, ℕ, ℤ, List, Any, true, false};
ghost use Rattle.linear.specs.declared.form.Fact.{Fact};
ghost use Rattle.ranges.specs.linear_shown.Shown.{AllHold};
ghost use Rattle.program.specs.declared.annotation.Zone.{Zone};
ghost use Rattle.program.specs.declared.identifier.ObjectName.{ObjectName};
ghost use Rattle.footprints_feet.specs.footprints_zones.Zones.{Span, as_written, mode_covers, modes_agree, is_empty, covers, is_apart, conflict, is_covered};
ghost use Rattle.footprints.specs.Cells.{HasCell};

/// At register values that meet the facts, an empty zone has no cell.
pub fn empty_zones_have_no_cell()
    ensures { (facts : List Fact) (z : Span) → is_empty facts z ≡ true → (v : ℕ → ℤ) → AllHold v facts → (o : ObjectName) (i : ℤ) → HasCell v z o i → ⊥ }
{}

/// At register values that meet the facts, a covering zone has each cell of the covered one.
pub fn covering_zones_have_the_cells()
    ensures { (facts : List Fact) (z y : Span) → covers facts z y ≡ true → (v : ℕ → ℤ) → AllHold v facts → (o : ObjectName) (i : ℤ)
        → HasCell v y o i → HasCell v z o i }
{}

/// At register values that meet the facts, each cell of a covered zone is one of a zone that covers it, in a mode that covers its own.
pub fn covered_cells_are_covered()
    ensures { (facts : List Fact) (zones : List Zone) (y : Span) → is_covered facts zones y ≡ true → (v : ℕ → ℤ) → AllHold v facts
        → (o : ObjectName) (i : ℤ) → HasCell v y o i
        → Any (λ z. HasCell v (as_written z) o i × (mode_covers z.mode y.zone.mode ≡ true)) zones }
{}

/// At register values that meet the facts, zones apart share no cell.
pub fn zones_apart_share_no_cell()
    ensures { (facts : List Fact) (z y : Span) → is_apart facts z y ≡ true → (v : ℕ → ℤ) → AllHold v facts → (o : ObjectName) (i : ℤ)
        → HasCell v z o i → HasCell v y o i → ⊥ }
{}

/// At register values that meet the facts, zones that do not conflict share cells only for uses whose order does not matter.
pub fn shared_cells_agree()
    ensures { (facts : List Fact) (z y : Span) → conflict facts z y ≡ false → (v : ℕ → ℤ) → AllHold v facts → (o : ObjectName) (i : ℤ)
        → HasCell v z o i → HasCell v y o i → modes_agree z.zone.mode y.zone.mode ≡ true }
{}
