//! The orders of an admission, and the change-over that a plant makes of them.
ghost use Rattle.std.specs.Prelude.{◌≡◌, ◌+◌, ◌*◌, ◌≤◌, [], ◌∷◌, ◌++◌, map, reverse, length, take, Some};
ghost use Rattle.reckoning.specs.declared.order.Kind.TheVariants.{Darken, Light};
ghost use Rattle.reckoning.specs.Sheets.{order, chain_orders, lightpath, retuning};
ghost use Rattle.sheet.specs.Pages.{page_of};
ghost use Rattle.sheet.specs.Sheets.{rewritten};
ghost use Rattle.book.specs.Standing.{parts_of};

use crate::moving::Exchange;
use crate::setting::Setting;
use plant::change_over::Retuning;
use plant::lightpath::Lightpath;
use reckoning::order::{Kind, Order};
use reckoning::session::Session;
use sheet::sheet::Sheet;

impl Setting {
    pub(crate) fn lightpath(&self, s: Session) -> Lightpath
        ensures { result ≡ lightpath (parts_of self.now).group s }
    {
        Lightpath {
            wavelength: s.wavelength,
            source: self.group_of(s.source),
            destination: self.group_of(s.destination),
        }
    }

    fn order(&self, kind: Kind, s: Session) -> Order
        ensures { result ≡ order (parts_of self.now).group kind s }
    {
        let Lightpath {
            wavelength,
            source,
            destination,
        } = self.lightpath(s);
        Order {
            kind,
            wavelength,
            source,
            destination,
            session: s.number,
        }
    }

    fn retuning(&self, exchange: Exchange, s: Session) -> Retuning
        ensures { result ≡ retuning (parts_of self.now).group exchange.p exchange.q s }
    {
        Retuning {
            path: self.lightpath(s),
            onto: exchange.swapped(s.wavelength),
        }
    }

    /// What a plant is to change of each session of a chain, in the first places.
    pub(crate) fn retunings(&self, chain: &[Session], exchange: Exchange) -> [Retuning; 32]
        requires { length chain.now ≤ 32 }
        ensures { take (length chain.now) result ≡ map (retuning (parts_of self.now).group exchange.p exchange.q) chain.now }
    {
        let mut changes = [Retuning::default(); 32];
        for i in 0..chain.len() {
            changes[i] = self.retuning(exchange, chain[i]);
        }
        changes
    }

    /// Writes the one order that darkens a session.
    pub(crate) fn write_darkening(&self, s: Session, orders: &mut Sheet<Order>)
        requires { 1 ≤ length (page_of orders.old).places }
        ensures { page_of orders.new ≡ rewritten (Some (order (parts_of self.now).group Darken s ∷ [])) (page_of orders.old) }
    {
        orders.clear();
        let _ = orders.put(self.order(Kind::Darken, s));
    }

    // Each session is darkened before the one after it in the chain is lit, since that one takes its wavelength.
    fn write_change(&self, chain: &[Session], exchange: Exchange, orders: &mut Sheet<Order>)
        requires { 2 * length chain.now ≤ length (page_of orders.old).places }
        ensures { page_of orders.new ≡ rewritten (Some (chain_orders (parts_of self.now).group exchange.p exchange.q (reverse chain.now))) (page_of orders.old) }
    {
        orders.clear();
        let Some((last, before)) = chain.split_last() else {
            return;
        };
        let _ = orders.put(self.order(Kind::Darken, *last));
        let mut dark = *last;
        for next in before.iter().rev() {
            let _ = orders.put(self.order(Kind::Darken, *next));
            let _ = orders.put(self.order(Kind::Light, exchange.moved(dark)));
            dark = *next;
        }
        let _ = orders.put(self.order(Kind::Light, exchange.moved(dark)));
    }

    /// Writes the orders by which the chain changes over and the new session is lit.
    pub(crate) fn write_orders(
        &self,
        chain: &[Session],
        exchange: Exchange,
        new: Session,
        orders: &mut Sheet<Order>,
    )
        requires { 2 * length chain.now + 1 ≤ length (page_of orders.old).places }
        ensures { page_of orders.new ≡ rewritten (Some (chain_orders (parts_of self.now).group exchange.p exchange.q (reverse chain.now) ++ (order (parts_of self.now).group Light new ∷ []))) (page_of orders.old) }
    {
        self.write_change(chain, exchange, orders);
        let _ = orders.put(self.order(Kind::Light, new));
    }
}
