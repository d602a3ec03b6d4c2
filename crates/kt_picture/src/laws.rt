//! Laws that a reader of a picture relies on, with nothing to run.

ghost use Rattle.std.specs.Prelude.{◌≡◌, ◌≢◌, ◌↔◌, ◌||◌, ◌+◌, ◌-◌, ◌≤◌, ◌<◌, ℕ, ℤ, Bool, Option, Some, None, true, false, List, [], Contains, length, drop, take, map, not, bytes_eq, replicate, slice_get, slice_index};
ghost use Rattle.std.specs.List.{filter_map, list_all};
ghost use Rattle.kt_spacetime.specs.declared.event.Event.{Event};
ghost use Rattle.kt_spacetime.specs.declared.event.Event.TheVariants.{Sent, Received, Dropped, Took, Ready, Decided};
ghost use Rattle.kt_spacetime.specs.Events.{process_of};
ghost use Rattle.kt_spacetime.specs.declared.deeds.Deed.TheVariants as deed;
ghost use Rattle.kt_meaning.specs.Past.{past};
ghost use Rattle.kt_meaning.specs.Cuts.{permanent_cut};
ghost use Rattle.kt_meaning.specs.Legal.{IsLegal, has_deed};
ghost use Rattle.kt_meaning.specs.Messages.{row_at};
ghost use Rattle.kt_rules.specs.Traces.{trace_of};
ghost use Rattle.kt_picture.specs.declared.window.Shown.{Shown};
ghost use Rattle.kt_picture.specs.declared.window.CutMark.{CutMark};
ghost use Rattle.kt_picture.specs.Arrows.{has_arrow, StaysReceived};
ghost use Rattle.kt_picture.specs.Escaping.{escaped, is_no_mark};
ghost use Rattle.kt_picture.specs.Fates.{is_send_undone, has_no_receive};
ghost use Rattle.kt_picture.specs.Places.{columns_before, IsLastPermanent, IsPermanentColumn, commits};
ghost use Rattle.kt_picture.specs.Looks.{class_text, outline_text, word_y};
ghost use Rattle.kt_picture.specs.declared.looks.Look.TheVariants as look;
ghost use Rattle.kt_picture.specs.declared.looks.Outline.TheVariants.{Square, Triangle};
ghost use Rattle.kt_picture.specs.declared.legend.Sign.{Sign};
ghost use Rattle.kt_picture.specs.declared.legend.TheConstants.{SIGNS};
ghost use Rattle.kt_picture.specs.Legend.{has_sign, signs_of};
ghost use Rattle.kt_picture.specs.Layers.{cut_text};
ghost use Rattle.kt_picture.specs.Marks.{arrow_of, colour_for, column_of, fill_look, is_crossed, is_grey, look_of, stands_out};
ghost use Rattle.kt_picture.specs.View.{View};
ghost use Rattle.kt_picture.specs.Window.{shown_of, cuts_of};

/// Each row of the window is shown once, with its number, in its column, on a lane that tells what is known before it.
pub fn each_row_is_shown()
    ensures count { (rows : List Event) (before : ℕ) → length (shown_of rows before) ≡ length (drop before rows) }
    ensures column { (rows : List Event) (before i : ℕ) (s : Shown) → slice_get (shown_of rows before) i ≡ Some s →
        (s.column ≡ i + 1) × (s.row ≡ before + s.column) }
    ensures event { (rows : List Event) (before : ℕ) (s : Shown) → Contains (shown_of rows before) s →
        row_at rows s.row ≡ Some s.event }

    // Dashed while the process is down, over the bar of the instance that it is in.
    ensures up { (rows : List Event) (before : ℕ) (s : Shown) → Contains (shown_of rows before) s →
        s.stretch.up ≡ (past (take (s.row - 1) rows)).up (process_of s.event) }
    ensures bar { (rows : List Event) (before : ℕ) (s : Shown) → Contains (shown_of rows before) s →
        s.stretch.open_in ≡ (past (take (s.row - 1) rows)).open_in (process_of s.event) }
{}

/// The send of a message counts as undone exactly where it is not in its sender's live history: a law.
pub fn undone_is_not_live()
    ensures { (rows : List Event) (msg p q : ℕ) (body : ℤ) → row_at rows msg ≡ Some (Sent p q body)
        → is_send_undone (trace_of rows msg) ≡ not (has_deed (deed.Sent msg q) ((past rows).live p)) }
{}

/// A message counts as not received exactly where its receiver's live history has no receive of it: a law.
pub fn unreceived_is_not_live()
    ensures { (rows : List Event) (msg p q : ℕ) (body : ℤ) → row_at rows msg ≡ Some (Sent p q body)
        → has_no_receive (trace_of rows msg) ≡ not (has_deed (deed.Received msg p) ((past rows).live q)) }
{}

/// Where an arrow is drawn, between which columns, and when it is grey or thin.
pub fn arrows_tell_messages()
    // Exactly where a message is received or dropped, or stands in transit at the window's end.
    ensures drawn { (view : View) (rows : List Event) (before : ℕ) (s : Shown) →
        Contains (shown_of rows before) s →
        (arrow_of view s ≢ None) ↔ (has_arrow rows s.row s.event ≡ true) }

    // From the column of the row that sent it, or from the left end.
    ensures tail { (rows : List Event) (before : ℕ) (s : Shown) → Contains (shown_of rows before) s →
        column_of before s.row ≡ s.column }
    ensures left_end { (before msg : ℕ) → msg ≤ before → column_of before msg ≡ 0 }

    // Grey exactly where its send is undone at the window's end.
    ensures sent_undone { (rows : List Event) (before p q : ℕ) (body : ℤ) (s : Shown) →
        Contains (shown_of rows before) s → s.event ≡ Sent p q body →
        s.is_undone ≡ not (has_deed (deed.Sent s.row q) ((past rows).live p)) }
    ensures received_undone { (rows : List Event) (before p q msg : ℕ) (s : Shown) → IsLegal rows →
        Contains (shown_of rows before) s → s.event ≡ Received p q msg →
        s.is_undone ≡ not (has_deed (deed.Sent msg p) ((past rows).live q)) }
    ensures dropped_undone { (rows : List Event) (before p q msg : ℕ) (s : Shown) → IsLegal rows →
        Contains (shown_of rows before) s → s.event ≡ Dropped p q msg →
        s.is_undone ≡ not (has_deed (deed.Sent msg p) ((past rows).live q)) }

    // Thin exactly where that receive does not stay in the receiver's live history.
    ensures taken_back { (rows : List Event) (before p q msg : ℕ) (s : Shown) → IsLegal rows →
        Contains (shown_of rows before) s → s.event ≡ Received p q msg →
        (s.is_taken_back ≡ false) ↔ StaysReceived rows s.row p q msg }
{}

/// Squares (`took`) and triangles (`ready`) tell how their instance is decided in the window.
pub fn joinings_tell_decisions()
    ensures took { (rows : List Event) (before p k : ℕ) (commit : Bool) (s : Shown) → IsLegal rows →
        Contains (shown_of rows before) s → s.event ≡ Took p k →
        (s.decision ≡ Some commit) ↔ ((q : ℕ) × Contains (drop before rows) (Decided q k commit)) }
    ensures ready { (rows : List Event) (before p k : ℕ) (commit : Bool) (s : Shown) → IsLegal rows →
        Contains (shown_of rows before) s → s.event ≡ Ready p k →
        (s.decision ≡ Some commit) ↔ ((q : ℕ) × Contains (drop before rows) (Decided q k commit)) }

    // Filled exactly after a commit, and crossed exactly after an abort; else as where nothing is decided.
    ensures filled { (d : Option Bool) → (class_text (fill_look d) ≢ class_text (fill_look None)) ↔ (d ≡ Some true) }
    ensures crossed_square { (d : Option Bool) → (outline_text (Square (is_crossed d)) ≢ outline_text (Square false)) ↔ (d ≡ Some false) }
    ensures crossed_triangle { (d : Option Bool) → (outline_text (Triangle (is_crossed d)) ≢ outline_text (Triangle false)) ↔ (d ≡ Some false) }
{}

/// After each committed decision of the window there is one cut, through each process's permanent position there; it is drawn
/// exactly where it differs from the one before, and the first one where it leaves the left end.
pub fn cuts_are_permanent()
    // One for each, in their order.
    ensures one_each { (rows : List Event) (before : ℕ) →
        map (λ c. c.inst) (cuts_of rows before) ≡ filter_map commits (drop before rows) }

    ensures changes { (rows : List Event) (before j : ℕ) (c : CutMark) → slice_get (cuts_of rows before) j ≡ Some c →
        c.is_new ≡ not (bytes_eq (columns_before (replicate 64 0) (cuts_of rows before) j) c.columns) }
    ensures drawn { (view : View) (c : CutMark) → (cut_text view c ≢ []) ↔ (c.is_new ≡ true) }

    // Each crosses a lane in the column of the row of the last permanent checkpoint, or at the left end.
    ensures through { (rows : List Event) (before : ℕ) (c : CutMark) → IsLegal rows →
        Contains (cuts_of rows before) c →
        (i : ℕ) × (p : ℕ) × (slice_get (drop before rows) i ≡ Some (Decided p c.inst true)) ×
        ((q : ℕ) → q < 64 → IsPermanentColumn rows before (before + i + 1) q (slice_index c.columns q)) }

    // There the live history was as long as the permanent cut has it.
    ensures position { (rows : List Event) (n p row : ℕ) → IsLegal rows → n ≤ length rows →
        IsLastPermanent rows n p row →
        permanent_cut (past (take n rows)) p ≡ length ((past (take (row - 1) rows)).live p) }
    ensures no_position { (rows : List Event) (n p : ℕ) → IsLegal rows → n ≤ length rows →
        ((row : ℕ) → IsLastPermanent rows n p row → ⊥) → permanent_cut (past (take n rows)) p ≡ 0 }
{}

/// How an arrow looks tells what became of its message, also of one in a chain.
pub fn arrows_look_as_they_end()
    // Grey exactly where its send or that receive is undone; the orphan alone stands out though its send is undone.
    ensures grey { (view : View) (s : Shown) (msg : ℕ) → stands_out view.orphan msg ≡ false →
        is_grey (look_of view s msg) ≡ (s.is_undone || s.is_taken_back) }
    ensures taken_back { (view : View) (s : Shown) (msg : ℕ) → s.is_taken_back ≡ true →
        is_grey (look_of view s msg) ≡ true }
    ensures orphan { (view : View) (s : Shown) (msg : ℕ) →
        s.is_taken_back ≡ false → stands_out view.orphan msg ≡ true → look_of view s msg ≡ look.Orphan }

    // In the colour of an instance exactly where the message is in that one's chain, and the arrow is neither grey nor stands
    // out.
    ensures coloured { (view : View) (s : Shown) (msg inst : ℕ) → view.link msg ≡ Some inst →
        s.is_undone ≡ false → s.is_taken_back ≡ false → stands_out view.orphan msg ≡ false →
        colour_for (look_of view s msg) (view.link msg) ≡ Some inst }
    ensures uncoloured { (view : View) (s : Shown) (msg : ℕ) → is_grey (look_of view s msg) ≡ true →
        colour_for (look_of view s msg) (view.link msg) ≡ None }
    ensures unlinked { (view : View) (s : Shown) (msg : ℕ) → view.link msg ≡ None →
        colour_for (look_of view s msg) (view.link msg) ≡ None }
{}

/// Words do not cover each other: between two lanes, words of columns that are less than four apart stand in different lines.
pub fn words_stand_apart()
    ensures apart { (lane c d : ℕ) (below : Bool) → c < d → d < c + 4 → word_y lane below c ≢ word_y lane below d }
    // Below a lane they stand in the same lines as above the next one.
    ensures shared { (lane c : ℕ) → word_y lane true c ≡ word_y (lane + 1) false c }
{}

/// The legend has a sign exactly where the picture has its mark.
pub fn legend_tells_marks()
    ensures { (view : View) (sign : Sign) → Contains SIGNS sign →
        Contains (signs_of view) sign ↔ (has_sign view sign ≡ true) }
{}

/// No `<`, `>`, `"` or `'` comes through into a picture: a law, with nothing to run.
pub fn escaped_has_no_mark()
    ensures { (text : List ℕ) → list_all is_no_mark (escaped text) ≡ true }
{}
