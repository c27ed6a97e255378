// Tests of the ends at the edges of their numbers.
#![tactic(auto)]

#[cfg(test)]
mod tests {
    use ends::{Returned, Sender, SenderFault};
    use refusals::{Place, Reason, Refusal};
    use sealing::{Line, LineName};
    use std::test::Fail;

    const LAST: u64 = 1 << 40;

    fn sender(first: u64) -> Result<Sender<(), ()>, SenderFault> {
        let line = Line {
            cipher: (),
            hash: (),
            name: LineName::new(&[0; 8]),
        };
        Sender::new(line, first)
    }

    // Draws a ticket and gives it up.
    fn skip(sender: &mut Sender<(), ()>) -> Result<u64, SenderFault> {
        let ticket = sender.draw()?;
        // Kept: a match, here and below, since a `let .. else` was tried and would drop a ticket, which is no `Drop`.
        match sender.give_up(ticket) {
            Ok(number) => Ok(number),
            Err(_) => unreachable(),
        }
    }

    // Written out, and not made by `Refusal::alone`, which the code under test goes through.
    fn told(number: u8, detail: u64) -> Reason {
        Reason {
            number,
            place: Place::Sender,
            detail,
        }
    }

    fn reason(fault: SenderFault) -> Reason {
        let refusal: Refusal = fault.into();
        refusal.reason
    }

    #[test]
    fn the_last_number_is_drawn_once(rt: HostRuntime) -> Result<(), Fail> {
        let mut s = sender(LAST)?;
        assert_eq!(rt; skip(&mut s)?, LAST);
        assert_eq!(rt; skip(&mut s), Err(SenderFault::UsedUp));
        Ok(())
    }

    #[test]
    fn a_first_number_is_from_1_to_the_last(rt: HostRuntime) {
        assert!(rt; sender(1).is_ok());
        assert_eq!(rt; sender(0).err(), Some(SenderFault::FirstNumber(0)));
        assert_eq!(rt;
            sender(LAST + 1).err(),
            Some(SenderFault::FirstNumber(LAST + 1))
        );
    }

    // What a second draw meets.
    fn second_draw(sender: &mut Sender<(), ()>) -> Result<SenderFault, SenderFault> {
        let ticket = sender.draw()?;
        let fault = match sender.draw() {
            Ok(_) => unreachable(),
            Err(fault) => fault,
        };
        match sender.give_up(ticket) {
            Ok(_) => Ok(fault),
            Err(_) => unreachable(),
        }
    }

    // What a ticket of `other` meets at `one`.
    fn foreign_ticket(
        one: &mut Sender<(), ()>,
        other: &mut Sender<(), ()>,
    ) -> Result<Option<SenderFault>, SenderFault> {
        let ticket = other.draw()?;
        match one.give_up(ticket) {
            Ok(_) => Ok(None),
            Err(Returned { ticket, fault }) => match other.give_up(ticket) {
                Ok(_) => Ok(Some(fault)),
                Err(_) => unreachable(),
            },
        }
    }

    #[test]
    fn one_ticket_is_out_at_a_time(rt: HostRuntime) -> Result<(), Fail> {
        let mut s = sender(7)?;
        assert_eq!(rt; second_draw(&mut s)?, SenderFault::TicketOut(7));
        assert_eq!(rt; skip(&mut s)?, 8);
        Ok(())
    }

    #[test]
    fn only_the_ticket_that_is_out_is_taken(rt: HostRuntime) -> Result<(), Fail> {
        let mut one = sender(7)?;
        let mut other = sender(9)?;
        let fault = foreign_ticket(&mut one, &mut other)?;
        assert_eq!(rt; fault, Some(SenderFault::WrongTicket(9)));
        Ok(())
    }

    #[test]
    fn each_fault_tells_its_number(rt: HostRuntime) {
        assert_eq!(rt; reason(SenderFault::FirstNumber(0)), told(2, 0));
        assert_eq!(rt; reason(SenderFault::TicketOut(7)), told(13, 7));
        assert_eq!(rt; reason(SenderFault::UsedUp), told(14, LAST));
        assert_eq!(rt; reason(SenderFault::WrongTicket(9)), told(15, 9));
    }
}
