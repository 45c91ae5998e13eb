// The items and the names that readers keep, each with its bytes.

use brief_text::Briefs;
use brief_tokens::record;
use origins::{Kind, NamedTexts, Role, Spans};
use plan_text::read_plan_at;
use std::alloc::{AllocError, Global};

// The items of this text, which is the only one.
fn items_in(alloc: Global, spans: &Spans, text: &[u8]) -> Result<String, AllocError> {
    let mut shown = String::new(alloc);
    for item in spans.items() {
        shown.push_str(str::from_utf8(item.span.of(text)).unwrap_or("?"))?;
        shown.push_str("\n")?;
    }
    Ok(shown)
}

// Its names, each after what it is the name of, and `=` where the item gives it, or `/` where it stands after that.
fn names_in(alloc: Global, spans: &Spans, text: &[u8]) -> Result<String, AllocError> {
    let mut texts = NamedTexts::new(alloc, spans)?;
    texts.add(text)?;
    let mut shown = String::new(alloc);
    for at in texts.names() {
        shown.push_str(kind_of(at.kind))?;
        shown.push_str(match at.role {
            Role::Given => "=",
            Role::Used => ":",
            Role::Label => "/",
        })?;
        shown.push_str(str::from_utf8(texts.word(*at)).unwrap_or("?"))?;
        shown.push_str(" ")?;
    }
    Ok(shown)
}

fn kind_of(kind: Kind) -> &'static str {
    match kind {
        Kind::Message => "m",
        Kind::Controller => "c",
        Kind::Interrupt => "i",
        Kind::Device => "d",
        Kind::Byte => "b",
    }
}

const BRIEF: &[u8] = b"brief 1 # device no
device fan 0x50 ; byte go 0x01 ;
message set write fan go *2 else (read fan 1) ; message get
  write fan any *1..3 ;
controller bmc set get ; controller host get ;
interrupt smoke fan ;
never bmc/set host ;
";

const BRIEF_ITEMS: &str = "device fan 0x50 ;
byte go 0x01 ;
message set write fan go *2 else (read fan 1) ;
message get
  write fan any *1..3 ;
controller bmc set get ;
controller host get ;
interrupt smoke fan ;
never bmc/set host ;
";

const BRIEF_NAMES: &str =
    "d=fan b=go m=set d:fan b:go d:fan m=get d:fan c=bmc m:set m:get c=host m:get i=smoke d:fan c:bmc m/set c:host ";

#[test]
fn briefs_have_their_names(rt: HostRuntime) {
    let alloc = rt.alloc();
    let mut spans = Spans::new(alloc);
    assert!(rt; Briefs::new(alloc).with_at(BRIEF, &mut spans).is_ok());
    assert!(rt; items_in(alloc, &spans, BRIEF).as_deref() == Ok(BRIEF_ITEMS));
    assert!(rt; names_in(alloc, &spans, BRIEF).as_deref() == Ok(BRIEF_NAMES));
}

#[test]
fn refused_briefs_have_all_their_names(rt: HostRuntime) {
    let alloc = rt.alloc();
    let mut spans = Spans::new(alloc);
    let text = b"brief 1 device a 0x50 ; message m write b c ; message n write a ;";
    assert!(rt; Briefs::new(alloc).with_at(text, &mut spans).is_err());
    assert!(rt; names_in(alloc, &spans, text).as_deref() == Ok("d=a m=m d:b b:c m=n d:a "));
    let mut headless = Spans::new(alloc);
    record(text.get(8..).unwrap_or(&[]), &mut headless);
    assert!(rt; headless.head(0).is_none() && headless.names().len() == 6);
}

// Whether something in this text gives a name to this message.
fn defines(alloc: Global, spans: &Spans, text: &[u8], message: &[u8]) -> Result<bool, AllocError> {
    let mut texts = NamedTexts::new(alloc, spans)?;
    texts.add(text)?;
    Ok(texts.definition(Kind::Message, message).is_some())
}

// What is no name, as what begins with a digit, hands nothing on to what stands beside it.
#[test]
fn what_is_no_name_gives_none(rt: HostRuntime) {
    let alloc = rt.alloc();
    let text =
        b"message 1st write 0x50 any*1..3 ; message set write fan ; controller k set ; never 2nd/set k ; never k/3rd k ;";
    let mut spans = Spans::new(alloc);
    record(text, &mut spans);
    assert!(rt;
        names_in(alloc, &spans, text).as_deref() == Ok("m=set d:fan c=k m:set c:k c:k c:k ")
    );
    assert!(rt; defines(alloc, &spans, text, b"set") == Ok(true));
    assert!(rt; defines(alloc, &spans, text, b"set_2") == Ok(false));
}

#[test]
fn texts_have_items_or_none(rt: HostRuntime) {
    let mut spans = Spans::new(rt.alloc());
    record(b"", &mut spans);
    record(b"device fan 0x50 ; device hub 0x51 ;", &mut spans);
    record(b"brief", &mut spans);
    record(b"byte go 0x01 ;", &mut spans);
    assert!(rt; !spans.has_items(0) && spans.has_items(1));
    assert!(rt; !spans.has_items(2) && spans.has_items(3) && !spans.has_items(4));
}

#[test]
fn plans_have_their_names(rt: HostRuntime) {
    let alloc = rt.alloc();
    let mut spans = Spans::new(alloc);
    let text =
        b"plan 2 message m write 1010000 xxxxxxxx stop else stop else stop ; controller k m ; never k j ; controller j ;";
    assert!(rt; read_plan_at(alloc, text, &mut spans).is_err());
    assert!(rt; names_in(alloc, &spans, text).as_deref() == Ok("m=m c=k m:m c:k c:j c=j "));
}
