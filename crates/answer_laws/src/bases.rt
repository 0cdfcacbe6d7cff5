//! Calls of a row of bases.
ghost use Rattle.std.specs.Prelude.{◌≡◌, ℕ, Bool, List, Option};
ghost use Rattle.base_row.specs.Calls.{Absorbs, Appended, GetsBase, LearnsFrom, LetsGo, SeesFurther, Shifted, Waits};
ghost use Rattle.base_row.specs.Plays.{KnowsOwn, RaisesTo};
ghost use Rattle.base_row.specs.declared.view.BaseView as view;
ghost use Rattle.base_row.specs.declared.view.HeldContent as locked;
ghost use Rattle.base_row.specs.declared.view.Opening as opening;
ghost use Rattle.seq_timer.specs.Events.{Event};
ghost use Rattle.seq_timer.specs.Systems.{BaseContent};
ghost use Rattle.seq_timer.specs.declared.standing.BaseEvent as shifts;
ghost use Rattle.seq_timer.specs.declared.system.SystemEntry as entry;
ghost use Rattle.answer_laws.specs.Bases.{FrontFits, StepFits, step_moment};

/// Behind the same entries an entry of a timer or of a base leaves a pass that knows one thing, with one content of the held base.
pub fn an_entry_on_a_base_is_fixed()
    ensures timers { (o : opening.Opening) (h : locked.HeldContent BaseContent) (t : ℕ) (event : Event) (v w w' : view.BaseView BaseContent)
        (c : Appended o h t event v w) (d : Appended o h t event v w') → c.before ≡ d.before → w ≡ w' }
    ensures bases { (o : opening.Opening) (h : locked.HeldContent BaseContent) (event : shifts.BaseEvent) (v w w' : view.BaseView BaseContent)
        (c : Shifted o h event v w) (d : Shifted o h event v w') → c.before ≡ d.before → w ≡ w' }
{}

/// What a pass knows after a load, a release, a meeting or a retirement is fixed by what it has then seen; after a try that failed by what it has seen, heard
/// and met of locks too.
pub fn a_look_at_bases_is_fixed()
    ensures loads { (v w w' : view.BaseView BaseContent) → SeesFurther v w → SeesFurther v w' → w.seen ≡ w'.seen → w ≡ w' }
    ensures frees { (o : opening.Opening) (h : locked.HeldContent BaseContent) (v w w' : view.BaseView BaseContent)
        → LetsGo o h v w → LetsGo o h v w' → w.seen ≡ w'.seen → w ≡ w' }
    ensures meets { (v u w w' : view.BaseView BaseContent) → LearnsFrom v u w → LearnsFrom v u w' → w.seen ≡ w'.seen → w ≡ w' }
    ensures retires { (v u w w' : view.BaseView BaseContent) → Absorbs v u w → Absorbs v u w' → w.seen ≡ w'.seen → w ≡ w' }
    ensures waits { (base : ℕ) (v w w' : view.BaseView BaseContent) → Waits base v w → Waits base v w'
        → w.seen ≡ w'.seen → w.heard ≡ w'.heard → w.met ≡ w'.met → w ≡ w' }
{}

/// A lock of a base hands out what the base has by what was then seen, and its take has the number of the lock word that was met.
pub fn a_locked_base_is_fixed()
    ensures { (base : ℕ) (v w w' : view.BaseView BaseContent) (h h' : locked.HeldContent BaseContent) → GetsBase base v w h → GetsBase base v w' h'
        → KnowsOwn w → KnowsOwn w' → w.seen ≡ w'.seen → w.met ≡ w'.met → (h ≡ h') × (w ≡ w') }
{}

/// A held base has one front.
pub fn a_front_is_fixed()
    ensures { (o : opening.Opening) (v : view.BaseView BaseContent) (h : locked.HeldContent BaseContent) (a a' : Option ℕ)
        → FrontFits o v h a → FrontFits o v h a' → a ≡ a' }
{}

/// Behind the same entries a counter is raised by as many rises (`raises`), and a step of it has one answer (`steps`).
pub fn a_rise_of_a_counter_is_fixed()
    ensures raises { (k to : ℕ) (old new new' : List entry.SystemEntry) (c : RaisesTo k to old new) (d : RaisesTo k to old new')
        → c.before ≡ d.before → new ≡ new' }
    ensures steps { (k from : ℕ) (old new new' : List entry.SystemEntry) (rose rose' : Bool) (c : StepFits k from old new rose)
        (d : StepFits k from old new' rose')
        → step_moment k from old new rose c ≡ step_moment k from old new' rose' d → (rose ≡ rose') × (new ≡ new') }
{}
