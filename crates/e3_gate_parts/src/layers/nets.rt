// Networks: what is lost and what comes twice, what parts and the calm do to it, and the order in which packets are taken.
//
// A line of the input is `net LOSS REPEAT`, of a hundred packets, and pieces: `send:A:B`, a packet of site A to site B; `three`,
// three packets at once; `many`, two hundred; `one:B`, which packet site B takes; `all:B`, which it takes one after the other;
// `first` and `pending`, what is under way; `divide`, sites 1 and 2 part from site 3, and it is calm; `calm`, and `rough`, which
// ends a calm.
use crate::texts::{cut, letter_of, push_text, triple, txn_of};
use e3_net::Net;
use e3_report::Page;
use e3_types::{List, Message, NoMemory, Packet, SiteSet};
use std::alloc::Global;

fn vote() -> Message {
    Message::Vote {
        txn: txn_of(1, SiteSet::one(1)),
        yes: true,
    }
}

// Sends a vote, with room for it; its number, or none without memory.
fn send(net: &mut Net, from: u32, to: u32) -> Option<u64> {
    if net.reserve(1).is_err() || net.sent() == u64::MAX {
        return None;
    }
    Some(net.send(from, to, vote()))
}

// Sends a vote, and adds its number.
fn push_sent(page: &mut Page, net: &mut Net, from: u32, to: u32) {
    match send(net, from, to) {
        Some(number) => page.labelled(", sent ", number),
        None => page.lack(),
    }
}

// Sends 200 packets of site 1 to site 2: the fate of each is lost, once or twice.
fn push_many(page: &mut Page, net: &mut Net) {
    for _ in 0..200u32 {
        if send(net, 1, 2).is_none() {
            page.lack();
        }
    }
    page.labelled(" sent ", net.sent());
}

// Takes so many packets for a site at most, and adds their numbers, one for each copy; a dash where only one was to come, and
// none did.
fn push_taken(page: &mut Page, net: &mut Net, site: u32, most: u32) {
    page.labelled(", taken at ", u64::from(site));
    for _ in 0..most {
        match net.take(site) {
            Some(packet) => page.labelled(" ", packet.number),
            None => {
                if most == 1 {
                    page.text(" -");
                }
                return;
            }
        }
    }
}

// Adds the first packet that is pending, and for whom it is.
fn push_first(page: &mut Page, net: &Net) {
    page.text(", pending first");
    if let Some(packet) = net.first_pending() {
        page.labelled(" ", packet.number);
        page.labelled(" from ", u64::from(packet.from));
    }
    page.text(" for");
    match net.first() {
        Some(site) => page.labelled(" ", u64::from(site)),
        None => page.text(" -"),
    }
}

// Divides the network in two parts, sites 1 and 2, and site 3, and calms it: what crosses the parts is lost all the same.
fn divide(alloc: Global, page: &mut Page, net: &mut Net) {
    let mut parts = List::new(alloc);
    if parts
        .extend(&[SiteSet::one(1).with(2), SiteSet::one(3)])
        .is_err()
    {
        page.lack();
    }
    net.parts(parts);
    net.calm(true);
}

// Two packets for site 2 and one between them for site 3, which are not sent yet.
fn three_packets(alloc: Global, page: &mut Page) -> List<Packet> {
    let mut outs = List::new(alloc);
    for to in [2, 3, 2] {
        let packet = Packet {
            number: 0,
            from: 1,
            to,
            msg: vote(),
        };
        if outs.push(packet).is_err() {
            page.lack();
        }
    }
    outs
}

// Sends packets, with room for three; as they were sent, or none without memory.
fn send_all(net: &mut Net, outs: List<Packet>) -> Option<List<Packet>> {
    if net.reserve(3).is_err() || outs.len() > 3 || net.sent() > 1000 {
        return None;
    }
    Some(net.send_all(outs))
}

// Sends three packets, and adds their numbers.
fn push_three(alloc: Global, page: &mut Page, net: &mut Net) {
    page.text(", sent");
    let outs = three_packets(alloc, page);
    match send_all(net, outs) {
        Some(sent) => {
            for packet in sent.as_slice() {
                page.labelled(" ", packet.number);
            }
        }
        None => page.lack(),
    }
}

// Does what a piece says.
fn act(alloc: Global, page: &mut Page, net: &mut Net, piece: &[u8]) {
    let (word, sites) = cut(piece, b':');
    let (site, to, _) = triple(sites);
    match letter_of(word) {
        b's' => push_sent(page, net, site, to),
        b'o' => push_taken(page, net, site, 1),
        b'a' => push_taken(page, net, site, 1000),
        b'm' => push_many(page, net),
        b't' => push_three(alloc, page, net),
        b'f' => push_first(page, net),
        b'p' => page.labelled(", pending ", net.pending()),
        b'd' => divide(alloc, page, net),
        b'c' => net.calm(true),
        _ => net.calm(false),
    }
}

// Adds what comes of these pieces on a network.
fn push_all(alloc: Global, page: &mut Page, net: &mut Net, pieces: &[&[u8]]) {
    for piece in pieces {
        if !push_text(page, piece) {
            act(alloc, page, net, piece);
        }
    }
    page.text("\n");
}

/// Adds what comes of these pieces on a network of three sites, which loses and repeats so many packets of a hundred.
pub fn push_pieces(alloc: Global, page: &mut Page, loss: u32, repeat: u32, pieces: &[&[u8]]) {
    let loss = loss.min(100);
    match Net::new(alloc, 3, 17, loss, repeat.min(100 - loss)) {
        Ok(mut net) => {
            push_all(alloc, page, &mut net, pieces);
            drop(net);
        }
        Err(NoMemory) => page.lack(),
    }
}
