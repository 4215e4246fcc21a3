//! Scripts: a server and the requests that are made to it, written as JSON (RFC 8259).
//!
//! A script is an object with a list `requests`. It may have a `prefix` (a text), `methods` (a list of the names of
//! the allowed methods), `locks` (true or false), `next` (a whole number) and `alone` (the place of a request with a
//! token, counted from 0). A request is an object with a `head` (a text, or an object with the one member `hex`). It may
//! have a `body` (null, an object with one of the members `text`, `hex` and `element`, or the word `malformed`), a
//! `principal` (a text), a `moment` (a whole number of seconds), a `token` (a text that a lock may be granted with), and
//! `refuse` (a list of null and names of errors).
ghost use Rattle.std.specs.Prelude.{◌≡◌, ◌≢◌, ◌↔◌, ◌≤◌, ℕ, Bool, List, Option, All, map, option_map, string_bytes, IsTrue, OnOk, OnErr, IfOk, IsErrOf, IsOkUnless, MatchOption};
ghost use Rattle.std.specs.Map.{keys_of};
ghost use Rattle.serde_json.specs.View.{view, items_view};
ghost use Rattle.serde_json.specs.Errors.{IsMemory};
ghost use Rattle.serde_json.specs.Find.{as_array};
ghost use Rattle.hex.specs.declared.error.FromHexError.TheVariants.{OutOfMemory};
ghost use Rattle.dav_core.specs.ErrorNames.{fs_error_name};
ghost use Rattle.dav_core.specs.declared.errors.FsError.{FsError};
ghost use Rattle.dav_core.specs.Method.{texts_of};
ghost use Rattle.dav_run.specs.Script.{IsMemberOf, IsObjectOf, AreItems, IsText, IsTextOrNone, IsDigits, IsHeadText, IsBodyValue, IsBody, IsMoment, IsToken, IsLocks, IsRefusal, AreRefusals, IsPrefix, AreMethods, IsMethods, IsNext, IsAlone, HasToken, IsRequest, IsScriptValue, IsScript, ScriptRequest, ScriptContent, script_request, script_content};
ghost use Rattle.dav_engine.specs.declared.request.Body.{Body};
ghost use Rattle.dav_run.specs.declared.script.ScriptError.TheVariants.{NotScript, Memory};

use crate::request::Request;
use bytes::Bytes;
use dav_core::errors::FsError;
use dav_core::method::{DavMethodSet, InvalidMethod};
use dav_engine::Body;
use dav_server::exchange::{GrantToken, LAST_MOMENT, TokenError};
use elements::read_element;
use hex::FromHexError;
use serde_json::{Map, Value};
use std::alloc::{AllocError, AllocFailed, Global};
use thiserror::Error;

/// Why bytes can't be read as a script.
#[derive(Clone, Copy, Debug, PartialEq, Eq, Error)]
pub enum ScriptError {
    /// They aren't the text of a script.
    #[error("NotScript")]
    NotScript,
    /// Memory ran out.
    #[error("Memory")]
    Memory,
}

impl From<AllocError> for ScriptError {
    ghost from_gives = { λ _ e. e ≡ Memory };

    fn from(_error: AllocError) -> ScriptError {
        ScriptError::Memory
    }
}

impl<T: Drop> From<AllocFailed<T>> for ScriptError {
    ghost from_gives = { λ _ e. e ≡ Memory };

    fn from(_error: AllocFailed<T>) -> ScriptError {
        ScriptError::Memory
    }
}

impl From<serde_json::Error> for ScriptError {
    ghost from_gives = { λ error e. e ≡ NotScript → ¬ IsMemory error };

    fn from(error: serde_json::Error) -> ScriptError {
        if error.is_memory() {
            ScriptError::Memory
        } else {
            ScriptError::NotScript
        }
    }
}

impl From<FromHexError> for ScriptError {
    ghost from_gives = { λ error e. e ≡ NotScript → error ≢ OutOfMemory };

    fn from(error: FromHexError) -> ScriptError {
        match error {
            FromHexError::OutOfMemory => ScriptError::Memory,
            _ => ScriptError::NotScript,
        }
    }
}

impl From<InvalidMethod> for ScriptError {
    ghost from_gives = { λ _ e. e ≡ NotScript };

    fn from(_error: InvalidMethod) -> ScriptError {
        ScriptError::NotScript
    }
}

/// A server, and the requests to be played on it, in order.
#[derive(Drop)]
pub struct Script {
    /// The path that each path of the server begins with; empty for none. It isn't checked whether a server accepts
    /// it.
    pub prefix: String,
    /// The methods that the server allows.
    pub methods: DavMethodSet,
    /// Whether the server has locks.
    pub locks: bool,
    /// The change number that comes next in the server's store, as it is in the script.
    pub next: u64,
    /// The requests, the first one first.
    pub requests: Vec<Request>,
    /// The place in `requests` of one that has a token, where the later requests that name this token are to be run
    /// alone too.
    pub alone: Option<usize>,
}

impl Script {
    /// The script in these bytes. Fails with `NotScript` where they aren't one, and with `Memory` where memory runs
    /// out.
    pub fn from_bytes(alloc: Global, bytes: &[u8]) -> Result<Script, ScriptError>
        ensures ok { IfOk result (λ script. IsScript bytes.now (script_content script)) }
        ensures none { IsErrOf result NotScript
            → (content : ScriptContent) → ¬ IsScript bytes.now content }
    {
        let value = Value::from_slice(alloc, bytes)?;
        read_script(alloc, &value)
    }
}

// The kinds of objects in a script.
#[derive(Clone, Copy)]
enum Form {
    // A script.
    Script,
    // A request.
    Request,
    // Bytes as hexadecimal digits.
    Digits,
    // The bytes of a body as digits or as a text, or its tree.
    Content,
    // An element.
    Tree,
}

impl Form {
    // Whether objects of this form may have a member of this name.
    fn has_member(self, name: &str) -> bool
        ensures { IsTrue result ↔ IsMemberOf self name.now }
    {
        match self {
            Form::Script => matches!(
                name,
                "alone" | "locks" | "methods" | "next" | "prefix" | "requests"
            ),
            Form::Request => matches!(
                name,
                "body" | "head" | "moment" | "principal" | "refuse" | "token"
            ),
            Form::Digits => matches!(name, "hex"),
            Form::Content => matches!(name, "element" | "hex" | "text"),
            Form::Tree => matches!(
                name,
                "attributes" | "children" | "name" | "namespace" | "prefix"
            ),
        }
    }

    // Whether objects of this form may have all of these members.
    fn has_members(self, members: &Map<String, Value>) -> bool
        ensures { IsTrue result
            ↔ All (λ name. IsMemberOf self (string_bytes name)) (keys_of members.now.entries) }
    {
        members.keys().all(|name| self.has_member(name.as_str()))
    }
}

// The script that a value is.
fn read_script(alloc: Global, value: &Value) -> Result<Script, ScriptError>
    ensures ok { IfOk result (λ script. IsScriptValue (view value.now) (script_content script)) }
    ensures none { IsErrOf result NotScript
        → (content : ScriptContent) → ¬ IsScriptValue (view value.now) content }
{
    check_members(value, Form::Script)?;
    let Some(list) = value.get("requests").and_then(Value::as_array) else {
        return Err(ScriptError::NotScript);
    };
    let requests = read_requests(alloc, list)?;
    let prefix = read_prefix(alloc, value.get("prefix"))?;
    let methods = read_methods(alloc, value.get("methods"))?;
    let locks = read_locks(value.get("locks"))?;
    let next = read_next(value.get("next"))?;
    let alone = read_alone(value.get("alone"), &requests)?;
    Ok(Script {
        prefix,
        methods,
        locks,
        next,
        requests,
        alone,
    })
}

// The prefix of a script; empty where the member is absent.
fn read_prefix(alloc: Global, value: Option<&Value>) -> Result<String, ScriptError>
    ensures ok { IfOk result
        (λ prefix. IsPrefix (option_map (λ v. view v.now) value.entry) (string_bytes prefix)) }
    ensures none { IsErrOf result NotScript
        → (prefix : List ℕ) → ¬ IsPrefix (option_map (λ v. view v.now) value.entry) prefix }
{
    let Some(value) = value else {
        return Ok(String::new(alloc));
    };
    read_string(alloc, value)
}

// The methods that a script allows; all where the member is absent.
fn read_methods(alloc: Global, value: Option<&Value>) -> Result<DavMethodSet, ScriptError>
    ensures ok { IfOk result (IsMethods (option_map (λ v. view v.now) value.entry)) }
    ensures none { IsErrOf result NotScript
        → (set : ℕ) → ¬ IsMethods (option_map (λ v. view v.now) value.entry) set }
{
    match value {
        None => Ok(DavMethodSet::all()),
        Some(value) => read_method_list(alloc, list_of(value)?),
    }
}

// The set of the methods that a list names.
fn read_method_list(alloc: Global, list: &[Value]) -> Result<DavMethodSet, ScriptError>
    ensures ok { IfOk result (AreMethods (items_view list.now)) }
    ensures none { IsErrOf result NotScript → (set : ℕ) → ¬ AreMethods (items_view list.now) set }
{
    let names = read_names(alloc, list)?;
    Ok(DavMethodSet::from_vec(&names)?)
}

// The texts in a list.
fn read_names(alloc: Global, list: &[Value]) -> Result<Vec<&str>, ScriptError>
    ensures ok { IfOk result (λ names. AreItems IsText (items_view list.now)
        (texts_of names.items)) }
    ensures none { IsErrOf result NotScript
        → (names : List (List ℕ)) → ¬ AreItems IsText (items_view list.now) names }
{
    let mut names = Vec::new(alloc);
    for item in list {
        names.push(text_of(item)?)?;
    }
    Ok(names)
}

// Whether there are locks; there are where the member is absent.
fn read_locks(value: Option<&Value>) -> Result<bool, ScriptError>
    ensures ok { IfOk result (IsLocks (option_map (λ v. view v.now) value.entry)) }
    ensures none { OnErr result ((locks : Bool)
        → ¬ IsLocks (option_map (λ v. view v.now) value.entry) locks) }
    ensures err { IsOkUnless result NotScript }
{
    let Some(value) = value else {
        return Ok(true);
    };
    value.as_bool().ok_or(ScriptError::NotScript)
}

// The change number that comes next; 1 where the member is absent.
fn read_next(value: Option<&Value>) -> Result<u64, ScriptError>
    ensures ok { IfOk result (IsNext (option_map (λ v. view v.now) value.entry)) }
    ensures none { OnErr result ((next : ℕ)
        → ¬ IsNext (option_map (λ v. view v.now) value.entry) next) }
    ensures err { IsOkUnless result NotScript }
{
    let Some(value) = value else {
        return Ok(1);
    };
    value.as_u64().ok_or(ScriptError::NotScript)
}

// The place of the request whose token's later requests are to be run alone; none where the member is absent.
fn read_alone(value: Option<&Value>, requests: &[Request]) -> Result<Option<usize>, ScriptError>
    ensures ok { IfOk result (IsAlone (option_map (λ v. view v.now) value.entry)
        (map script_request requests.now)) }
    ensures none { OnErr result ((alone : Option ℕ)
        → ¬ IsAlone (option_map (λ v. view v.now) value.entry)
        (map script_request requests.now) alone) }
    ensures err { IsOkUnless result NotScript }
{
    let Some(value) = value else {
        return Ok(None);
    };
    match value.as_u64() {
        Some(place) if has_token(requests, place) => Ok(Some(place as usize)),
        _ => Err(ScriptError::NotScript),
    }
}

// Whether the request at this place is there and has a token.
fn has_token(requests: &[Request], place: u64) -> bool
    ensures { IsTrue result ↔ HasToken (map script_request requests.now) place }
{
    match requests.get(place as usize) {
        Some(request) => request.token.is_some(),
        None => false,
    }
}

// The requests in a list.
fn read_requests(alloc: Global, list: &[Value]) -> Result<Vec<Request>, ScriptError>
    ensures ok { IfOk result
        (λ requests. AreItems IsRequest (items_view list.now) (map script_request requests.items)) }
    ensures none { IsErrOf result NotScript
        → (requests : List ScriptRequest) → ¬ AreItems IsRequest (items_view list.now) requests }
{
    let mut requests = Vec::new(alloc);
    for item in list {
        requests.push(read_request(alloc, item)?)?;
    }
    Ok(requests)
}

// The request that a value is.
fn read_request(alloc: Global, value: &Value) -> Result<Request, ScriptError>
    ensures ok { IfOk result (λ request. IsRequest (view value.now) (script_request request)) }
    ensures none { IsErrOf result NotScript
        → (request : ScriptRequest) → ¬ IsRequest (view value.now) request }
{
    check_members(value, Form::Request)?;
    let Some(head) = value.get("head") else {
        return Err(ScriptError::NotScript);
    };
    let head = read_head(alloc, head)?;
    let body = read_body(alloc, value.get("body"))?;
    let principal = read_text_or_none(alloc, value.get("principal"))?;
    let moment = read_moment(value.get("moment"))?;
    let token = read_token(alloc, value.get("token"))?;
    let refusals = read_refusals(alloc, value.get("refuse"))?;
    Ok(Request {
        head,
        body,
        principal,
        moment,
        token,
        refusals,
    })
}

// The bytes of a head: those of a text, or those whose digits are in the one member `hex`.
fn read_head(alloc: Global, value: &Value) -> Result<Vec<u8>, ScriptError>
    ensures ok { IfOk result (λ bytes. IsHeadText (view value.now) bytes.items) }
    ensures none { IsErrOf result NotScript → (bytes : List ℕ)
        → ¬ IsHeadText (view value.now) bytes }
{
    if value.is_string() {
        return read_text(alloc, value);
    }
    check_members(value, Form::Digits)?;
    read_hex(alloc, value.get("hex").ok_or(ScriptError::NotScript)?)
}

// The body of a request; none where the member is absent.
fn read_body(alloc: Global, value: Option<&Value>) -> Result<Body, ScriptError>
    ensures ok { IfOk result
        (IsBody (option_map (λ v. view v.now) value.entry)) }
    ensures none { IsErrOf result NotScript
        → (body : Body) → ¬ IsBody (option_map (λ v. view v.now) value.entry) body }
{
    match value {
        None => Ok(Body::None),
        Some(value) => read_body_value(alloc, value),
    }
}

// The body that a value is.
fn read_body_value(alloc: Global, value: &Value) -> Result<Body, ScriptError>
    ensures ok { IfOk result (IsBodyValue (view value.now)) }
    ensures none { IsErrOf result NotScript → (body : Body) → ¬ IsBodyValue (view value.now) body }
{
    if value.is_null() {
        return Ok(Body::None);
    }
    if let Some(word) = value.as_str() {
        return if word == "malformed" {
            Ok(Body::Malformed)
        } else {
            Err(ScriptError::NotScript)
        };
    }
    check_members(value, Form::Content)?;
    match (value.get("text"), value.get("hex"), value.get("element")) {
        (Some(text), None, None) => bytes_body(read_text(alloc, text)?),
        (None, Some(digits), None) => bytes_body(read_hex(alloc, digits)?),
        (None, None, Some(tree)) => Ok(Body::Tree(read_element(alloc, tree)?)),
        _ => Err(ScriptError::NotScript),
    }
}

// A body of these bytes.
fn bytes_body(bytes: Vec<u8>) -> Result<Body, ScriptError>
    ensures ok { IfOk result (λ body. body ≡ Body.Bytes bytes.items) }
    ensures err { IsOkUnless result Memory }
{
    Ok(Body::Bytes(Bytes::from_vec(bytes)?))
}

// A text; none where the member is absent or null.
fn read_text_or_none(alloc: Global, value: Option<&Value>) -> Result<Option<String>, ScriptError>
    ensures ok { IfOk result (λ text. IsTextOrNone
        (option_map (λ v. view v.now) value.entry) (option_map string_bytes text)) }
    ensures none { IsErrOf result NotScript → (text : Option (List ℕ))
        → ¬ IsTextOrNone (option_map (λ v. view v.now) value.entry) text }
{
    let Some(value) = value else {
        return Ok(None);
    };
    if value.is_null() {
        return Ok(None);
    }
    Ok(Some(read_string(alloc, value)?))
}

// A text of its own.
fn read_string(alloc: Global, value: &Value) -> Result<String, ScriptError>
    ensures ok { IfOk result (λ text. IsText (view value.now) (string_bytes text)) }
    ensures none { IsErrOf result NotScript → (bytes : List ℕ) → ¬ IsText (view value.now) bytes }
{
    Ok(String::from_str(alloc, text_of(value)?)?)
}

// The token for a lock; none where the member is absent or null.
fn read_token(alloc: Global, value: Option<&Value>) -> Result<Option<GrantToken>, ScriptError>
    ensures ok { IfOk result (IsToken (option_map (λ v. view v.now) value.entry)) }
    ensures none { IsErrOf result NotScript → (token : Option (List ℕ))
        → ¬ IsToken (option_map (λ v. view v.now) value.entry) token }
{
    let Some(value) = value else {
        return Ok(None);
    };
    if value.is_null() {
        return Ok(None);
    }
    match GrantToken::new(alloc, text_of(value)?) {
        Ok(token) => Ok(Some(token)),
        Err(TokenError::Refused) => Err(ScriptError::NotScript),
        Err(TokenError::Memory) => Err(ScriptError::Memory),
    }
}

// The moment of a request, in seconds since 1970; 0 where the member is absent.
fn read_moment(value: Option<&Value>) -> Result<u64, ScriptError>
    ensures ok { IfOk result (IsMoment (option_map (λ v. view v.now) value.entry)) }
    ensures none { OnErr result ((moment : ℕ)
        → ¬ IsMoment (option_map (λ v. view v.now) value.entry) moment) }
    ensures err { IsOkUnless result NotScript }
    ensures in_time { IfOk result (λ moment. moment ≤ 253402300799) }
{
    let Some(value) = value else {
        return Ok(0);
    };
    match value.as_u64() {
        Some(moment) if moment <= LAST_MOMENT => Ok(moment),
        _ => Err(ScriptError::NotScript),
    }
}

// The refusals of a request's store calls; none where the member is absent.
fn read_refusals(alloc: Global, value: Option<&Value>) -> Result<Vec<Option<FsError>>, ScriptError>
    ensures ok { IfOk result
        (λ refusals. AreRefusals (option_map (λ v. view v.now) value.entry) refusals.items) }
    ensures none { IsErrOf result NotScript → (refusals : List (Option FsError))
        → ¬ AreRefusals (option_map (λ v. view v.now) value.entry) refusals }
{
    match value {
        None => Ok(Vec::new(alloc)),
        Some(value) => read_refusal_list(alloc, list_of(value)?),
    }
}

// The refusals in a list.
fn read_refusal_list(alloc: Global, list: &[Value]) -> Result<Vec<Option<FsError>>, ScriptError>
    ensures ok { IfOk result (λ refusals. AreItems IsRefusal (items_view list.now) refusals.items) }
    ensures none { IsErrOf result NotScript → (refusals : List (Option FsError))
        → ¬ AreItems IsRefusal (items_view list.now) refusals }
{
    let mut refusals = Vec::new(alloc);
    for item in list {
        refusals.push(read_refusal(item)?)?;
    }
    Ok(refusals)
}

// What happens to one store call: null lets it through, and the name of an error refuses it with that.
fn read_refusal(value: &Value) -> Result<Option<FsError>, ScriptError>
    ensures ok { IfOk result (IsRefusal (view value.now)) }
    ensures none { OnErr result
        ((refusal : Option FsError) → ¬ IsRefusal (view value.now) refusal) }
    ensures err { IsOkUnless result NotScript }
{
    if value.is_null() {
        return Ok(None);
    }
    match error_named(text_of(value)?) {
        Some(error) => Ok(Some(error)),
        None => Err(ScriptError::NotScript),
    }
}

// The error with this name.
fn error_named(name: &str) -> Option<FsError>
    ensures { MatchOption result ((e : FsError) → name.now ≢ fs_error_name e)
        (λ e. name.now ≡ fs_error_name e) }
{
    match name {
        "NotImplemented" => Some(FsError::NotImplemented),
        "GeneralFailure" => Some(FsError::GeneralFailure),
        "Exists" => Some(FsError::Exists),
        "NotFound" => Some(FsError::NotFound),
        "Forbidden" => Some(FsError::Forbidden),
        "InsufficientStorage" => Some(FsError::InsufficientStorage),
        "LoopDetected" => Some(FsError::LoopDetected),
        "PathTooLong" => Some(FsError::PathTooLong),
        "TooLarge" => Some(FsError::TooLarge),
        "IsRemote" => Some(FsError::IsRemote),
        _ => None,
    }
}

// The bytes of a text.
fn read_text(alloc: Global, value: &Value) -> Result<Vec<u8>, ScriptError>
    ensures ok { IfOk result (λ bytes. IsText (view value.now) bytes.items) }
    ensures none { IsErrOf result NotScript → (bytes : List ℕ) → ¬ IsText (view value.now) bytes }
{
    Ok(Vec::from_slice(alloc, text_of(value)?.as_bytes())?)
}

// The bytes whose hexadecimal digits, in either case, are a text.
fn read_hex(alloc: Global, value: &Value) -> Result<Vec<u8>, ScriptError>
    ensures ok { IfOk result (λ bytes. IsDigits (view value.now) bytes.items) }
    ensures none { IsErrOf result NotScript → (bytes : List ℕ) → ¬ IsDigits (view value.now) bytes }
{
    Ok(hex::decode(alloc, text_of(value)?)?)
}

// The items of a value that is a list.
fn list_of(value: &Value) -> Result<&[Value], ScriptError>
    ensures ok { IfOk result (λ list. as_array (view value.now) ≡ Some (items_view list.now)) }
    ensures none { OnErr result (as_array (view value.now) ≡ None) }
    ensures err { IsOkUnless result NotScript }
{
    match value.as_array() {
        Some(list) => Ok(list),
        None => Err(ScriptError::NotScript),
    }
}

// The text of a value that is one.
fn text_of(value: &Value) -> Result<&str, ScriptError>
    ensures ok { IfOk result (λ text. IsText (view value.now) text.now) }
    ensures none { OnErr result ((bytes : List ℕ) → ¬ IsText (view value.now) bytes) }
    ensures err { IsOkUnless result NotScript }
{
    value.as_str().ok_or(ScriptError::NotScript)
}

// Checks that a value is an object whose members are all of this form.
fn check_members(value: &Value, form: Form) -> Result<(), ScriptError>
    ensures ok { OnOk result (IsObjectOf form (view value.now)) }
    ensures none { OnErr result (¬ IsObjectOf form (view value.now)) }
    ensures err { IsOkUnless result NotScript }
{
    let Some(members) = value.as_object() else {
        return Err(ScriptError::NotScript);
    };
    if form.has_members(members) {
        Ok(())
    } else {
        Err(ScriptError::NotScript)
    }
}

mod elements;
