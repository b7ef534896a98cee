//! The seats.

ghost use Rattle.std.specs.Prelude.{◌≡◌};
ghost use Rattle.example_booking.specs.Seats as spec;
ghost use Rattle.sv_web.specs.Exchange.{Completes};

use sv_servlet::{Call, Next};
use sv_web::{
    Exchange, Get, Post, Refusal, get_number, parameter, read_u64, send_error, set_number,
    set_plain_text,
};

/// The attribute that holds the seat.
const SEAT: &str = "seat";

/// Shows which seat the session has, 0 for none. A POST books the seat of its parameter `seat`, 1 to 40.
#[derive(Clone, Copy)]
pub struct Seats;

/// The seat that is asked for; 0 where it is none of the hall.
fn seat_of(call: &Call<'_>) -> u64
    ensures { result ≡ spec.seat_of call.now }
{
    match read_u64(parameter(call.params, "seat").unwrap_or("")) {
        Some(seat) if seat <= 40 => seat,
        _ => 0,
    }
}

/// Writes which seat it is.
fn write_seat(web: &mut Exchange<'_>, seat: u64) -> Result<Next, Refusal>
    ensures { Completes (spec.shown seat) web.old web.new result }
{
    let text = format!(in web.alloc; "seat {seat}\n")?;
    web.reply.write(text.as_bytes())?;
    Ok(Next::Done)
}

/// Books a seat.
#[tactic(auto, unfolding(crate::specs::Seats::booked))]
fn book(web: &mut Exchange<'_>, seat: u64) -> Result<Next, Refusal>
    ensures { Completes (spec.booked seat) web.old web.new result }
{
    if seat == 0 {
        return Ok(send_error(web.alloc, 400, "seats are 1 to 40")?);
    }
    set_number(web.alloc, web.edit, SEAT, seat)?;
    write_seat(web, seat)
}

impl Get for Seats {
    ghost use Rattle.example_booking.specs.Seats.{asked};

    ghost gets = { λ _. asked };

    fn get(&mut self, web: &mut Exchange<'_>) -> Result<Next, Refusal> {
        set_plain_text(web.reply)?;
        let seat = get_number(web.edit, SEAT)?.unwrap_or(0);
        write_seat(web, seat)
    }
}

impl Post for Seats {
    ghost use Rattle.example_booking.specs.Seats.{taken};

    ghost posts = { λ _. taken };

    fn post(&mut self, web: &mut Exchange<'_>) -> Result<Next, Refusal> {
        let seat = seat_of(web.call);
        set_plain_text(web.reply)?;
        book(web, seat)
    }
}
