//! The words of the language: where each may stand, what comes with it, and since which version.

ghost use Rattle.std.specs.Prelude.{◌≡◌, ◌≤◌, ℕ, true, option_map, map, IfSome};
ghost use Rattle.dv_forms.specs.declared.want.CallKind.TheVariants.{Action as action};
ghost use Rattle.dv_forms.specs.declared.want.CallKind.TheVariants.{Event as event};
ghost use Rattle.dv_forms.specs.Words.{action_word, apart, end_word, event_word, has_word};
ghost use Rattle.dv_forms.specs.Words.{may_stand, narrower, outcome_word, own_forms, seen};
ghost use Rattle.dv_forms.specs.Words.{statement_word};
ghost use Rattle.dv_forms.specs.Words.{wants_in, wants_of, work_word};

use crate::limits::MOST_TIMES;
use crate::versions::{COOPERATORS_SINCE, FIRST_VERSION, TIMEOUTS_SINCE};
use crate::want::{CallKind, Item, Keyed, Leaf, Object, Want};
use dv_clock::limits::{MOST_DELAY, MOST_TICKS};
use dv_script::limits::{MOST_DRAINED, MOST_PLACES, MOST_SUM, MOST_UNITS};

/// The word of an action.
#[derive(Clone, Copy, Drop)]
pub enum ActionWord {
    Deferred,
    Callback,
    Errback,
    AddCallback,
    AddErrback,
    AddBoth,
    AddCallbacks,
    Chain,
    Pause,
    Unpause,
    Cancel,
    AddTimeout,
    Note,
    List,
    Gather,
    Maybe,
    Lock,
    Semaphore,
    Acquire,
    Release,
    RunWith,
    Queue,
    Put,
    Get,
    Later,
    CancelCall,
    ResetCall,
    DelayCall,
    Loop,
    StopLoop,
    Cooperate,
    WhenDone,
    PauseTask,
    StopTask,
    ResumeTask,
    Inline,
    Thread,
    ThreadIn,
    Units,
    CooperateIn,
    UnitsIn,
    StopCooperator,
}

/// The word of an event that is no action.
#[derive(Clone, Copy, Drop)]
pub enum EventWord {
    Advance,
    Drain,
    Expect,
    Repeat,
}

/// The word of a statement.
#[derive(Clone, Copy, Drop)]
pub enum StatementWord {
    Do,
    Await,
    Try,
    Finally,
    Raise,
    Caught,
    End,
}

/// The word of an end.
#[derive(Clone, Copy, Drop)]
pub enum EndWord {
    Return,
    Pass,
    Plus,
    Raise,
    Trap,
    Wait,
    Run,
    Throw,
}

/// The word of a work.
#[derive(Clone, Copy, Drop)]
pub enum WorkWord {
    Value,
    Raise,
    Sum,
}

/// The word of what is expected of a Deferred.
#[derive(Clone, Copy, Drop)]
pub enum OutcomeWord {
    Unfired,
    Waiting,
    Ok,
    Fail,
}

/// A form of a word: the word, its text, what each argument has to be, the form as the tables of
/// the language show it, and the first version that has it. A word with an argument that may be
/// left out has two forms.
pub type Form<W> = (W, &'static str, &'static [Want], &'static str, u32);

const NEW_DEFERRED: Want = Want::Leaf(Leaf::New(Object::Deferred));

const DEFERRED: Want = Want::Leaf(Leaf::Found(Object::Deferred));

const NEW_LOCK: Want = Want::Leaf(Leaf::New(Object::Lock));

const LOCK: Want = Want::Leaf(Leaf::Found(Object::Lock));

const NEW_QUEUE: Want = Want::Leaf(Leaf::New(Object::Queue));

const QUEUE: Want = Want::Leaf(Leaf::Found(Object::Queue));

const NEW_CALL: Want = Want::Leaf(Leaf::New(Object::Call));

const CALL: Want = Want::Leaf(Leaf::Found(Object::Call));

const NEW_LOOP: Want = Want::Leaf(Leaf::New(Object::Loop));

const LOOP: Want = Want::Leaf(Leaf::Found(Object::Loop));

const NEW_TASK: Want = Want::Leaf(Leaf::New(Object::Task));

const TASK: Want = Want::Leaf(Leaf::Found(Object::Task));

const POOL: Want = Want::Leaf(Leaf::Found(Object::Pool));

const COOPERATOR: Want = Want::Leaf(Leaf::Found(Object::Cooperator));

const CLASS: Want = Want::Leaf(Leaf::Found(Object::Class));

const TEXT: Want = Want::Leaf(Leaf::Text);

const VALUE: Want = Want::Value;

const DELAY: Want = Want::Leaf(Leaf::Number(0, MOST_DELAY));

const INTERVAL: Want = Want::Leaf(Leaf::Number(1, MOST_DELAY));

const PLACES: Want = Want::Leaf(Leaf::Number(1, MOST_PLACES as u64));

const BOUND: Want = Want::Leaf(Leaf::Bound);

const BOOLEAN: Want = Want::Leaf(Leaf::Boolean);

const DEFERREDS: Want = Want::Array(Item::Deferred);

const CLASSES: Want = Want::Array(Item::Class);

const BODY: Want = Want::Keyed(Keyed::Body(FIRST_VERSION));

const TIMEOUT_BODY: Want = Want::Keyed(Keyed::Body(TIMEOUTS_SINCE));

const BODIES: Want = Want::Array(Item::Body);

const TURNS: Want = Want::Array(Item::Turn);

const STATEMENTS: Want = Want::Array(Item::Statement);

const WORK: Want = Want::Call(CallKind::Work);

/// The forms of the actions.
pub const ACTION_FORMS: [Form<ActionWord>; 44] = [
    (
        ActionWord::Deferred,
        "deferred",
        &[NEW_DEFERRED],
        "[\"deferred\",D]",
        1,
    ),
    (
        ActionWord::Deferred,
        "deferred",
        &[NEW_DEFERRED, BODY],
        "[\"deferred\",D,BODY]",
        1,
    ),
    (
        ActionWord::Callback,
        "callback",
        &[DEFERRED, VALUE],
        "[\"callback\",D,VALUE]",
        1,
    ),
    (
        ActionWord::Errback,
        "errback",
        &[DEFERRED, CLASS, TEXT],
        "[\"errback\",D,CLASS,TEXT]",
        1,
    ),
    (
        ActionWord::AddCallback,
        "addCallback",
        &[DEFERRED, BODY],
        "[\"addCallback\",D,BODY]",
        1,
    ),
    (
        ActionWord::AddErrback,
        "addErrback",
        &[DEFERRED, BODY],
        "[\"addErrback\",D,BODY]",
        1,
    ),
    (
        ActionWord::AddBoth,
        "addBoth",
        &[DEFERRED, BODY],
        "[\"addBoth\",D,BODY]",
        1,
    ),
    (
        ActionWord::AddCallbacks,
        "addCallbacks",
        &[DEFERRED, BODY, BODY],
        "[\"addCallbacks\",D,BODY,BODY]",
        1,
    ),
    (
        ActionWord::Chain,
        "chain",
        &[DEFERRED, DEFERRED],
        "[\"chain\",D,E]",
        1,
    ),
    (ActionWord::Pause, "pause", &[DEFERRED], "[\"pause\",D]", 1),
    (
        ActionWord::Unpause,
        "unpause",
        &[DEFERRED],
        "[\"unpause\",D]",
        1,
    ),
    (
        ActionWord::Cancel,
        "cancel",
        &[DEFERRED],
        "[\"cancel\",D]",
        1,
    ),
    (
        ActionWord::AddTimeout,
        "addTimeout",
        &[DEFERRED, DELAY],
        "[\"addTimeout\",D,N]",
        1,
    ),
    (
        ActionWord::AddTimeout,
        "addTimeout",
        &[DEFERRED, DELAY, TIMEOUT_BODY],
        "[\"addTimeout\",D,N,BODY]",
        TIMEOUTS_SINCE,
    ),
    (ActionWord::Note, "note", &[TEXT], "[\"note\",TEXT]", 1),
    (
        ActionWord::List,
        "list",
        &[NEW_DEFERRED, DEFERREDS, Want::Array(Item::ListFlag)],
        "[\"list\",D,[D..],[FLAG..]]",
        1,
    ),
    (
        ActionWord::Gather,
        "gather",
        &[NEW_DEFERRED, DEFERREDS, Want::Array(Item::GatherFlag)],
        "[\"gather\",D,[D..],[FLAG..]]",
        1,
    ),
    (
        ActionWord::Maybe,
        "maybe",
        &[NEW_DEFERRED, BODY],
        "[\"maybe\",D,BODY]",
        1,
    ),
    (ActionWord::Lock, "lock", &[NEW_LOCK], "[\"lock\",L]", 1),
    (
        ActionWord::Semaphore,
        "semaphore",
        &[NEW_LOCK, PLACES],
        "[\"semaphore\",L,N]",
        1,
    ),
    (
        ActionWord::Acquire,
        "acquire",
        &[NEW_DEFERRED, LOCK],
        "[\"acquire\",D,L]",
        1,
    ),
    (
        ActionWord::Release,
        "release",
        &[LOCK],
        "[\"release\",L]",
        1,
    ),
    (
        ActionWord::RunWith,
        "runWith",
        &[NEW_DEFERRED, LOCK, BODY],
        "[\"runWith\",D,L,BODY]",
        1,
    ),
    (
        ActionWord::Queue,
        "queue",
        &[NEW_QUEUE, BOUND, BOUND],
        "[\"queue\",Q,SIZE,BACKLOG]",
        1,
    ),
    (
        ActionWord::Put,
        "put",
        &[QUEUE, VALUE],
        "[\"put\",Q,VALUE]",
        1,
    ),
    (
        ActionWord::Get,
        "get",
        &[NEW_DEFERRED, QUEUE],
        "[\"get\",D,Q]",
        1,
    ),
    (
        ActionWord::Later,
        "later",
        &[NEW_CALL, DELAY, BODY],
        "[\"later\",C,N,BODY]",
        1,
    ),
    (
        ActionWord::CancelCall,
        "cancelCall",
        &[CALL],
        "[\"cancelCall\",C]",
        1,
    ),
    (
        ActionWord::ResetCall,
        "resetCall",
        &[CALL, DELAY],
        "[\"resetCall\",C,N]",
        3,
    ),
    (
        ActionWord::DelayCall,
        "delayCall",
        &[CALL, DELAY],
        "[\"delayCall\",C,N]",
        3,
    ),
    (
        ActionWord::Loop,
        "loop",
        &[NEW_LOOP, NEW_DEFERRED, INTERVAL, BOOLEAN, TURNS],
        "[\"loop\",P,D,N,NOW,BODY]",
        1,
    ),
    (
        ActionWord::StopLoop,
        "stopLoop",
        &[LOOP],
        "[\"stopLoop\",P]",
        1,
    ),
    (
        ActionWord::Cooperate,
        "cooperate",
        &[NEW_TASK, BODIES],
        "[\"cooperate\",T,[BODY..]]",
        1,
    ),
    (
        ActionWord::WhenDone,
        "whenDone",
        &[NEW_DEFERRED, TASK],
        "[\"whenDone\",D,T]",
        1,
    ),
    (
        ActionWord::PauseTask,
        "pauseTask",
        &[TASK],
        "[\"pauseTask\",T]",
        1,
    ),
    (
        ActionWord::StopTask,
        "stopTask",
        &[TASK],
        "[\"stopTask\",T]",
        1,
    ),
    (
        ActionWord::ResumeTask,
        "resumeTask",
        &[TASK],
        "[\"resumeTask\",T]",
        1,
    ),
    (
        ActionWord::Inline,
        "inline",
        &[NEW_DEFERRED, STATEMENTS],
        "[\"inline\",D,[STATEMENT..]]",
        1,
    ),
    (
        ActionWord::Thread,
        "thread",
        &[NEW_DEFERRED, DELAY, WORK],
        "[\"thread\",D,N,WORK]",
        1,
    ),
    (
        ActionWord::ThreadIn,
        "threadIn",
        &[NEW_DEFERRED, POOL, DELAY, WORK],
        "[\"threadIn\",D,POOL,N,WORK]",
        2,
    ),
    (
        ActionWord::Units,
        "units",
        &[Want::Leaf(Leaf::Number(1, MOST_UNITS as u64))],
        "[\"units\",N]",
        3,
    ),
    (
        ActionWord::CooperateIn,
        "cooperateIn",
        &[NEW_TASK, COOPERATOR, BODIES],
        "[\"cooperateIn\",T,W,[BODY..]]",
        COOPERATORS_SINCE,
    ),
    (
        ActionWord::UnitsIn,
        "unitsIn",
        &[COOPERATOR, Want::Leaf(Leaf::Number(1, MOST_UNITS as u64))],
        "[\"unitsIn\",W,N]",
        COOPERATORS_SINCE,
    ),
    (
        ActionWord::StopCooperator,
        "stopCooperator",
        &[COOPERATOR],
        "[\"stopCooperator\",W]",
        COOPERATORS_SINCE,
    ),
];

/// The forms of the events that are no actions.
pub const EVENT_FORMS: [Form<EventWord>; 4] = [
    (
        EventWord::Advance,
        "advance",
        &[Want::Leaf(Leaf::Number(0, MOST_TICKS))],
        "[\"advance\",N]",
        1,
    ),
    (
        EventWord::Drain,
        "drain",
        &[Want::Leaf(Leaf::Number(0, MOST_DRAINED as u64))],
        "[\"drain\",N]",
        1,
    ),
    (
        EventWord::Expect,
        "expect",
        &[DEFERRED, Want::Call(CallKind::Outcome)],
        "[\"expect\",D,OUTCOME]",
        3,
    ),
    (
        EventWord::Repeat,
        "repeat",
        &[
            Want::Leaf(Leaf::Number(0, MOST_TIMES)),
            Want::Array(Item::Event),
        ],
        "[\"repeat\",N,[EVENT..]]",
        3,
    ),
];

/// The forms of the statements of inline bodies.
pub const STATEMENT_FORMS: [Form<StatementWord>; 7] = [
    (
        StatementWord::Do,
        "do",
        &[Want::Call(CallKind::Action)],
        "[\"do\",ACTION]",
        1,
    ),
    (
        StatementWord::Await,
        "await",
        &[DEFERRED],
        "[\"await\",D]",
        1,
    ),
    (
        StatementWord::Try,
        "try",
        &[STATEMENTS, CLASSES, STATEMENTS],
        "[\"try\",[STATEMENT..],[CLASS..],[STATEMENT..]]",
        1,
    ),
    (
        StatementWord::Finally,
        "finally",
        &[STATEMENTS, STATEMENTS],
        "[\"finally\",[STATEMENT..],[STATEMENT..]]",
        3,
    ),
    (StatementWord::Raise, "raise", &[], "[\"raise\"]", 3),
    (StatementWord::Caught, "caught", &[], "[\"caught\"]", 3),
    (
        StatementWord::End,
        "end",
        &[Want::Call(CallKind::Leaving)],
        "[\"end\",END]",
        1,
    ),
];

/// The forms of the ends by which an inline body may be left.
pub const LEAVING_FORMS: [Form<EndWord>; 5] = [
    (EndWord::Return, "return", &[VALUE], "[\"return\",VALUE]", 1),
    (EndWord::Pass, "pass", &[], "[\"pass\"]", 1),
    (
        EndWord::Plus,
        "plus",
        &[Want::Leaf(Leaf::Integer)],
        "[\"plus\",N]",
        1,
    ),
    (
        EndWord::Raise,
        "raise",
        &[CLASS, TEXT],
        "[\"raise\",CLASS,TEXT]",
        1,
    ),
    (
        EndWord::Throw,
        "throw",
        &[Want::Array(Item::Place)],
        "[\"throw\",[I..]]",
        3,
    ),
];

/// The forms of the other ends.
pub const END_FORMS: [Form<EndWord>; 3] = [
    (
        EndWord::Trap,
        "trap",
        &[CLASSES, VALUE],
        "[\"trap\",[CLASS..],VALUE]",
        1,
    ),
    (EndWord::Wait, "wait", &[DEFERRED], "[\"wait\",D]", 1),
    (
        EndWord::Run,
        "run",
        &[Want::Leaf(Leaf::Found(Object::Body))],
        "[\"run\",NAME]",
        3,
    ),
];

/// The forms of the works of threads.
pub const WORK_FORMS: [Form<WorkWord>; 3] = [
    (WorkWord::Value, "value", &[VALUE], "[\"value\",VALUE]", 1),
    (
        WorkWord::Raise,
        "raise",
        &[CLASS, TEXT],
        "[\"raise\",CLASS,TEXT]",
        1,
    ),
    (
        WorkWord::Sum,
        "sum",
        &[Want::Leaf(Leaf::Number(0, MOST_SUM as u64))],
        "[\"sum\",N]",
        1,
    ),
];

/// The forms of what is expected of a Deferred.
pub const OUTCOME_FORMS: [Form<OutcomeWord>; 4] = [
    (OutcomeWord::Unfired, "unfired", &[], "[\"unfired\"]", 3),
    (OutcomeWord::Waiting, "waiting", &[], "[\"waiting\"]", 3),
    (OutcomeWord::Ok, "ok", &[VALUE], "[\"ok\",VALUE]", 3),
    (
        OutcomeWord::Fail,
        "fail",
        &[Want::Keyed(Keyed::Failure)],
        "[\"fail\",FAILURE]",
        3,
    ),
];

/// The narrower place whose words may stand at such a place, too: an action is an event, for one.
pub fn narrower(call: CallKind) -> Option<CallKind>
    ensures { result ≡ narrower call }
{
    match call {
        CallKind::Event => Some(CallKind::Action),
        CallKind::End => Some(CallKind::Leaving),
        CallKind::Action
        | CallKind::Statement
        | CallKind::Leaving
        | CallKind::Work
        | CallKind::Outcome => None,
    }
}

/// What the so many arguments of a word have to be by the first of these forms that has so many,
/// and the first version that has this form.
fn form_in<W: Copy>(
    forms: &'static [Form<W>],
    word: &str,
    given: usize,
) -> Option<(&'static [Want], u32)>
    ensures wants { option_map (λ form. form.0.now) result
        ≡ wants_in (map seen forms.now) word.now given }
    ensures since { IfSome result (λ form. (version : ℕ) → form.1 ≤ version
        → has_word (map seen forms.now) word.now version ≡ true) }
{
    for form in forms {
        if form.2.len() == given && form.1 == word {
            return Some((form.2, form.4));
        }
    }
    None
}

/// The form in a row, where it is for the word with so many arguments.
fn form_at<W: Copy>(
    forms: &'static [Form<W>],
    row: usize,
    word: &str,
    given: usize,
) -> Option<(&'static [Want], u32)>
    requires apart { apart (map seen forms.now) ≡ true }
    ensures wants { IfSome result
        (λ form. wants_in (map seen forms.now) word.now given ≡ Some form.0.now) }
    ensures since { IfSome result (λ form. (version : ℕ) → form.1 ≤ version
        → has_word (map seen forms.now) word.now version ≡ true) }
{
    let form = forms.get(row)?;
    if form.2.len() == given && form.1 == word {
        Some((form.2, form.4))
    } else {
        None
    }
}

/// The row of `ACTION_FORMS` in which the first form of a word likely stands, by `likely_place`. A
/// row that is wrong costs time, and nothing else: all rows are searched then.
const LIKELY_ROWS: [u8; 128] = [
    0, 0, 0, 0, 0, 0, 0, 40, 0, 7, 0, 17, 36, 0, 0, 35, 14, 0, 0, 12, 0, 5, 0, 4, 28, 16, 0, 0, 30,
    0, 0, 2, 9, 0, 0, 0, 0, 0, 0, 23, 0, 11, 0, 3, 0, 0, 0, 25, 38, 27, 21, 0, 0, 0, 29, 0, 0, 0,
    26, 20, 0, 19, 0, 0, 39, 0, 0, 8, 0, 42, 0, 10, 0, 0, 0, 0, 0, 32, 0, 41, 0, 0, 0, 0, 15, 31,
    18, 33, 0, 0, 0, 0, 22, 0, 0, 0, 0, 0, 0, 0, 0, 6, 0, 0, 0, 0, 0, 0, 0, 0, 24, 0, 0, 37, 0, 0,
    0, 0, 0, 0, 0, 0, 0, 0, 34, 43, 0, 0,
];

/// The place of a word in `LIKELY_ROWS`, by its length and its first and its last letter: no two
/// words of actions have the same.
fn likely_place(word: &str) -> Option<usize> {
    let first = *word.as_bytes().first()?;
    let last = *word.as_bytes().last()?;
    Some((word.len() % 64 * 2 + first as usize * 7 + last as usize * 14) % 128)
}

/// The form of an action in the row in which it likely stands, where it has so many arguments
/// there.
fn likely_form(word: &str, given: usize) -> Option<(&'static [Want], u32)>
    ensures wants { IfSome result
        (λ form. wants_in (own_forms action) word.now given ≡ Some form.0.now) }
    ensures since { IfSome result (λ form. (version : ℕ) → form.1 ≤ version
        → has_word (own_forms action) word.now version ≡ true) }
{
    let row = LIKELY_ROWS.get(likely_place(word)?)?;
    form_at(&ACTION_FORMS, *row as usize, word, given)
}

/// The same as `form_in` of the forms of actions: a row is guessed before all are gone through.
fn action_form(word: &str, given: usize) -> Option<(&'static [Want], u32)>
    ensures wants { option_map (λ form. form.0.now) result
        ≡ wants_in (own_forms action) word.now given }
    ensures since { IfSome result (λ form. (version : ℕ) → form.1 ≤ version
        → has_word (own_forms action) word.now version ≡ true) }
{
    match likely_form(word, given) {
        Some(form) => Some(form),
        None => form_in(&ACTION_FORMS, word, given),
    }
}

/// The same of the forms at such a place, and at none narrower.
fn own_form(call: CallKind, word: &str, given: usize) -> Option<(&'static [Want], u32)>
    ensures wants { option_map (λ form. form.0.now) result
        ≡ wants_in (own_forms call) word.now given }
    ensures since { IfSome result (λ form. (version : ℕ) → form.1 ≤ version
        → has_word (own_forms call) word.now version ≡ true) }
{
    match call {
        CallKind::Event => form_in(&EVENT_FORMS, word, given),
        CallKind::Action => action_form(word, given),
        CallKind::Statement => form_in(&STATEMENT_FORMS, word, given),
        CallKind::End => form_in(&END_FORMS, word, given),
        CallKind::Leaving => form_in(&LEAVING_FORMS, word, given),
        CallKind::Work => form_in(&WORK_FORMS, word, given),
        CallKind::Outcome => form_in(&OUTCOME_FORMS, word, given),
    }
}

/// The same as `form_of`, by the forms at the place and then those at the narrower one.
fn widened_form(call: CallKind, word: &str, given: usize) -> Option<(&'static [Want], u32)>
    ensures wants { option_map (λ form. form.0.now) result ≡ wants_of call word.now given }
    ensures since { IfSome result (λ form. (version : ℕ) → form.1 ≤ version
        → may_stand call word.now version ≡ true) }
{
    if let Some(form) = own_form(call, word, given) {
        return Some(form);
    }
    match narrower(call) {
        Some(inner) => own_form(inner, word, given),
        None => None,
    }
}

/// The same as `form_of` at the place of an event: most events are actions, so a row of an action
/// is guessed first.
fn event_form(word: &str, given: usize) -> Option<(&'static [Want], u32)>
    ensures wants { option_map (λ form. form.0.now) result ≡ wants_of event word.now given }
    ensures since { IfSome result (λ form. (version : ℕ) → form.1 ≤ version
        → may_stand event word.now version ≡ true) }
{
    match likely_form(word, given) {
        Some(form) => Some(form),
        None => widened_form(CallKind::Event, word, given),
    }
}

/// What the arguments of a word have to be, where it may stand at such a place and has a form with
/// so many, and the first version that has this form.
pub fn form_of(call: CallKind, word: &str, given: usize) -> Option<(&'static [Want], u32)>
    ensures wants { option_map (λ form. form.0.now) result ≡ wants_of call word.now given }
    ensures since { IfSome result (λ form. (version : ℕ) → form.1 ≤ version
        → may_stand call word.now version ≡ true) }
{
    match call {
        CallKind::Event => event_form(word, given),
        CallKind::Action
        | CallKind::Statement
        | CallKind::End
        | CallKind::Leaving
        | CallKind::Work
        | CallKind::Outcome => widened_form(call, word, given),
    }
}

/// What the arguments of a word have to be, where it may stand at such a place and has a form with
/// so many.
pub fn wants_of(call: CallKind, word: &str, given: usize) -> Option<&'static [Want]>
    ensures { option_map (λ wants. wants.now) result ≡ wants_of call word.now given }
{
    let (wants, _) = form_of(call, word, given)?;
    Some(wants)
}

fn has_word<W: Copy>(forms: &'static [Form<W>], word: &str, version: u32) -> bool
    ensures { result ≡ has_word (map seen forms.now) word.now version }
{
    for form in forms {
        if form.1 == word && form.4 <= version {
            return true;
        }
    }
    false
}

fn may_stand_itself(call: CallKind, word: &str, version: u32) -> bool
    ensures { result ≡ has_word (own_forms call) word.now version }
{
    match call {
        CallKind::Event => has_word(&EVENT_FORMS, word, version),
        CallKind::Action => has_word(&ACTION_FORMS, word, version),
        CallKind::Statement => has_word(&STATEMENT_FORMS, word, version),
        CallKind::End => has_word(&END_FORMS, word, version),
        CallKind::Leaving => has_word(&LEAVING_FORMS, word, version),
        CallKind::Work => has_word(&WORK_FORMS, word, version),
        CallKind::Outcome => has_word(&OUTCOME_FORMS, word, version),
    }
}

/// Whether a word may stand at such a place in a script of this version, whatever comes with it.
pub fn may_stand(call: CallKind, word: &str, version: u32) -> bool
    ensures { result ≡ may_stand call word.now version }
{
    if may_stand_itself(call, word, version) {
        return true;
    }
    match narrower(call) {
        Some(inner) => may_stand_itself(inner, word, version),
        None => false,
    }
}

impl ActionWord {
    /// The action that this text names, letter for letter, whatever comes with it.
    pub fn named(text: &str) -> Option<ActionWord>
        ensures { result ≡ action_word text.now }
    {
        match text {
            "deferred" => Some(ActionWord::Deferred),
            "callback" => Some(ActionWord::Callback),
            "errback" => Some(ActionWord::Errback),
            "addCallback" => Some(ActionWord::AddCallback),
            "addErrback" => Some(ActionWord::AddErrback),
            "addBoth" => Some(ActionWord::AddBoth),
            "addCallbacks" => Some(ActionWord::AddCallbacks),
            "chain" => Some(ActionWord::Chain),
            "pause" => Some(ActionWord::Pause),
            "unpause" => Some(ActionWord::Unpause),
            "cancel" => Some(ActionWord::Cancel),
            "addTimeout" => Some(ActionWord::AddTimeout),
            "note" => Some(ActionWord::Note),
            "list" => Some(ActionWord::List),
            "gather" => Some(ActionWord::Gather),
            "maybe" => Some(ActionWord::Maybe),
            "lock" => Some(ActionWord::Lock),
            "semaphore" => Some(ActionWord::Semaphore),
            "acquire" => Some(ActionWord::Acquire),
            "release" => Some(ActionWord::Release),
            "runWith" => Some(ActionWord::RunWith),
            "queue" => Some(ActionWord::Queue),
            "put" => Some(ActionWord::Put),
            "get" => Some(ActionWord::Get),
            "later" => Some(ActionWord::Later),
            "cancelCall" => Some(ActionWord::CancelCall),
            "resetCall" => Some(ActionWord::ResetCall),
            "delayCall" => Some(ActionWord::DelayCall),
            "loop" => Some(ActionWord::Loop),
            "stopLoop" => Some(ActionWord::StopLoop),
            "cooperate" => Some(ActionWord::Cooperate),
            "whenDone" => Some(ActionWord::WhenDone),
            "pauseTask" => Some(ActionWord::PauseTask),
            "stopTask" => Some(ActionWord::StopTask),
            "resumeTask" => Some(ActionWord::ResumeTask),
            "inline" => Some(ActionWord::Inline),
            "thread" => Some(ActionWord::Thread),
            "threadIn" => Some(ActionWord::ThreadIn),
            "units" => Some(ActionWord::Units),
            "cooperateIn" => Some(ActionWord::CooperateIn),
            "unitsIn" => Some(ActionWord::UnitsIn),
            "stopCooperator" => Some(ActionWord::StopCooperator),
            _ => None,
        }
    }
}

impl EventWord {
    /// The event that is no action that this text names, letter for letter, whatever comes with it.
    pub fn named(text: &str) -> Option<EventWord>
        ensures { result ≡ event_word text.now }
    {
        match text {
            "advance" => Some(EventWord::Advance),
            "drain" => Some(EventWord::Drain),
            "expect" => Some(EventWord::Expect),
            "repeat" => Some(EventWord::Repeat),
            _ => None,
        }
    }
}

impl StatementWord {
    /// The statement that this text names, letter for letter, whatever comes with it.
    pub fn named(text: &str) -> Option<StatementWord>
        ensures { result ≡ statement_word text.now }
    {
        match text {
            "do" => Some(StatementWord::Do),
            "await" => Some(StatementWord::Await),
            "try" => Some(StatementWord::Try),
            "finally" => Some(StatementWord::Finally),
            "raise" => Some(StatementWord::Raise),
            "caught" => Some(StatementWord::Caught),
            "end" => Some(StatementWord::End),
            _ => None,
        }
    }
}

impl EndWord {
    /// The end that this text names, letter for letter, whatever comes with it.
    pub fn named(text: &str) -> Option<EndWord>
        ensures { result ≡ end_word text.now }
    {
        match text {
            "return" => Some(EndWord::Return),
            "pass" => Some(EndWord::Pass),
            "plus" => Some(EndWord::Plus),
            "raise" => Some(EndWord::Raise),
            "throw" => Some(EndWord::Throw),
            "trap" => Some(EndWord::Trap),
            "wait" => Some(EndWord::Wait),
            "run" => Some(EndWord::Run),
            _ => None,
        }
    }
}

impl WorkWord {
    /// The work that this text names, letter for letter, whatever comes with it.
    pub fn named(text: &str) -> Option<WorkWord>
        ensures { result ≡ work_word text.now }
    {
        match text {
            "value" => Some(WorkWord::Value),
            "raise" => Some(WorkWord::Raise),
            "sum" => Some(WorkWord::Sum),
            _ => None,
        }
    }
}

impl OutcomeWord {
    /// What is expected that this text names, letter for letter, whatever comes with it.
    pub fn named(text: &str) -> Option<OutcomeWord>
        ensures { result ≡ outcome_word text.now }
    {
        match text {
            "unfired" => Some(OutcomeWord::Unfired),
            "waiting" => Some(OutcomeWord::Waiting),
            "ok" => Some(OutcomeWord::Ok),
            "fail" => Some(OutcomeWord::Fail),
            _ => None,
        }
    }
}
