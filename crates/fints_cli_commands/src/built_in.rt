//! The texts that the program has: they are in `examples/` too.
ghost use Rattle.std.specs.Prelude.{◌≡◌};
ghost use Rattle.fints_cli_commands.specs.BuiltIn.{all_orders};

/// A capture: the bank's parameters and the PIN/TAN parameters (`examples/c1.fints`).
pub const CAPTURE: &[u8] = b"HIBPA:3:3+12+280:10020030+Bank+1+1+300+0'
HIPINS:9:1+1+1+0+5:38:6:::HKSAL:N:HKKAZ:N:HKCCS:J'
";

/// An order table (`examples/orders.toml`).
pub const ORDERS: &[u8] = b"[[order]]
kind = \"HKSAL\"
version = 5
account = \"national\"
[[order]]
kind = \"HKKAZ\"
version = 5
account = \"national\"
[[order]]
kind = \"HKSAL\"
version = 7
account = \"international\"
[[order]]
kind = \"HKKAZ\"
version = 7
account = \"international\"
[[order]]
kind = \"HKCCS\"
version = 1
account = \"international\"
";

/// A script of one step, which ends the dialogue (`examples/end.toml`).
pub const SCRIPT: &[u8] = b"[[step]]
name = \"end\"
segments = [{kind = \"HKEND\", version = 1, elements = [\"$dialog\"]}]
";

/// The orders of FinTS 3.0 (`examples/orders-all.toml`).
const ALL_ORDERS: &[u8] =
    b"# The orders of FinTS 3.0, and how element 2 of each names an account: not at all (\"none\"), as
# number:subaccount:country:bank code (\"national\"), or as IBAN:BIC:number:subaccount:country:bank
# code (\"international\"). The facts are those of HBCI4Java's definitions of FinTS 3.0, kind by kind and
# version by version; the words beside them are ours, and a row without words says all that we know.
# HKVPP and HKVPA (the check of a payee's name) aren't in those definitions: their rows are from memory.
# HKTAN has no row, and neither have HKIDN, HKVVB, HKSYN and HKEND.
order = [
  # Another PIN
  {kind = \"DKPAE\", version = 1, account = \"none\"},
  # A transfer abroad without a report to the central bank
  {kind = \"HKAOM\", version = 1, account = \"national\"},
  {kind = \"HKAOM\", version = 2, account = \"national\"},
  # A transfer abroad
  {kind = \"HKAUE\", version = 1, account = \"national\"},
  {kind = \"HKAZK\", version = 1, account = \"national\"},
  {kind = \"HKAZK\", version = 2, account = \"national\"},
  # SEPA direct debits between firms, several
  {kind = \"HKBME\", version = 1, account = \"international\"},
  # A SEPA direct debit between firms
  {kind = \"HKBSE\", version = 1, account = \"international\"},
  # Turnover as camt
  {kind = \"HKCAZ\", version = 1, account = \"international\"},
  # SEPA transfers, several
  {kind = \"HKCCM\", version = 1, account = \"international\"},
  # A SEPA transfer
  {kind = \"HKCCS\", version = 1, account = \"international\"},
  # SEPA standing orders: the list
  {kind = \"HKCDB\", version = 1, account = \"international\"},
  # SEPA standing orders: a new one
  {kind = \"HKCDE\", version = 1, account = \"international\"},
  # SEPA standing orders: the end of one
  {kind = \"HKCDL\", version = 1, account = \"international\"},
  # SEPA standing orders: a change of one
  {kind = \"HKCDN\", version = 1, account = \"international\"},
  # SEPA transfers at a date, several
  {kind = \"HKCME\", version = 1, account = \"international\"},
  # SEPA transfers at a date: a change of one
  {kind = \"HKCSA\", version = 1, account = \"international\"},
  # SEPA transfers at a date: the list
  {kind = \"HKCSB\", version = 1, account = \"international\"},
  # SEPA transfers at a date: a new one
  {kind = \"HKCSE\", version = 1, account = \"international\"},
  # SEPA transfers at a date: the end of one
  {kind = \"HKCSL\", version = 1, account = \"international\"},
  # A SEPA transfer between accounts of the user
  {kind = \"HKCUM\", version = 1, account = \"international\"},
  # Standing orders before SEPA: the list
  {kind = \"HKDAB\", version = 3, account = \"national\"},
  {kind = \"HKDAB\", version = 4, account = \"national\"},
  {kind = \"HKDAB\", version = 5, account = \"national\"},
  # Standing orders before SEPA: a new one
  {kind = \"HKDAE\", version = 4, account = \"national\"},
  {kind = \"HKDAE\", version = 5, account = \"national\"},
  # Standing orders before SEPA: the end of one
  {kind = \"HKDAL\", version = 3, account = \"national\"},
  {kind = \"HKDAL\", version = 4, account = \"national\"},
  # Standing orders before SEPA: a change of one
  {kind = \"HKDAN\", version = 4, account = \"national\"},
  {kind = \"HKDAN\", version = 5, account = \"national\"},
  {kind = \"HKDDB\", version = 1, account = \"international\"},
  {kind = \"HKDDE\", version = 1, account = \"international\"},
  # SEPA direct debits (COR1), several
  {kind = \"HKDMC\", version = 1, account = \"international\"},
  # SEPA direct debits, several
  {kind = \"HKDME\", version = 1, account = \"international\"},
  # A SEPA direct debit (COR1)
  {kind = \"HKDSC\", version = 1, account = \"international\"},
  # A SEPA direct debit
  {kind = \"HKDSE\", version = 1, account = \"international\"},
  {kind = \"HKDTE\", version = 1, account = \"national\"},
  # An urgent transfer
  {kind = \"HKEIL\", version = 1, account = \"national\"},
  # A statement of account
  {kind = \"HKEKA\", version = 1, account = \"national\"},
  {kind = \"HKEKA\", version = 2, account = \"national\"},
  {kind = \"HKEKA\", version = 3, account = \"national\"},
  {kind = \"HKEKA\", version = 4, account = \"international\"},
  {kind = \"HKEKA\", version = 5, account = \"international\"},
  # A statement of account as PDF
  {kind = \"HKEKP\", version = 1, account = \"international\"},
  {kind = \"HKEKP\", version = 2, account = \"international\"},
  # Fixed deposits: the list
  {kind = \"HKFGB\", version = 3, account = \"national\"},
  {kind = \"HKFGB\", version = 4, account = \"national\"},
  # Fixed deposits: the conditions
  {kind = \"HKFGK\", version = 1, account = \"none\"},
  {kind = \"HKFGK\", version = 2, account = \"none\"},
  {kind = \"HKFGK\", version = 3, account = \"none\"},
  # Fixed deposits: a new one
  {kind = \"HKFGN\", version = 3, account = \"national\"},
  {kind = \"HKFGN\", version = 4, account = \"national\"},
  {kind = \"HKGUB\", version = 1, account = \"national\"},
  # Information of the bank
  {kind = \"HKINF\", version = 1, account = \"none\"},
  {kind = \"HKINF\", version = 2, account = \"none\"},
  {kind = \"HKINF\", version = 3, account = \"none\"},
  {kind = \"HKINF\", version = 4, account = \"none\"},
  # A SEPA instant payment
  {kind = \"HKIPZ\", version = 1, account = \"international\"},
  # A public key of the bank
  {kind = \"HKISA\", version = 3, account = \"none\"},
  {kind = \"HKKAN\", version = 5, account = \"national\"},
  {kind = \"HKKAN\", version = 6, account = \"national\"},
  {kind = \"HKKAN\", version = 7, account = \"international\"},
  # Turnover as MT940
  {kind = \"HKKAZ\", version = 5, account = \"national\"},
  {kind = \"HKKAZ\", version = 6, account = \"national\"},
  {kind = \"HKKAZ\", version = 7, account = \"international\"},
  # A message to the bank
  {kind = \"HKKDM\", version = 4, account = \"national\"},
  {kind = \"HKKDM\", version = 5, account = \"national\"},
  {kind = \"HKKIA\", version = 1, account = \"none\"},
  {kind = \"HKKIA\", version = 2, account = \"none\"},
  {kind = \"HKKIA\", version = 3, account = \"none\"},
  {kind = \"HKKIA\", version = 4, account = \"none\"},
  # Information on an account
  {kind = \"HKKIF\", version = 1, account = \"national\"},
  {kind = \"HKKIF\", version = 2, account = \"national\"},
  # The ways to the bank
  {kind = \"HKKOM\", version = 2, account = \"none\"},
  {kind = \"HKKOM\", version = 3, account = \"none\"},
  {kind = \"HKKOM\", version = 4, account = \"none\"},
  # A direct debit before SEPA
  {kind = \"HKLAS\", version = 4, account = \"national\"},
  {kind = \"HKLAS\", version = 5, account = \"national\"},
  # An objection to a direct debit
  {kind = \"HKLSW\", version = 1, account = \"national\"},
  {kind = \"HKLSW\", version = 2, account = \"national\"},
  # Another PIN
  {kind = \"HKPAE\", version = 1, account = \"none\"},
  # The list of past orders
  {kind = \"HKPRO\", version = 2, account = \"none\"},
  {kind = \"HKPRO\", version = 3, account = \"none\"},
  {kind = \"HKPRO\", version = 4, account = \"none\"},
  # A receipt
  {kind = \"HKQTG\", version = 1, account = \"none\"},
  {kind = \"HKSAK\", version = 3, account = \"none\"},
  # A balance
  {kind = \"HKSAL\", version = 5, account = \"national\"},
  {kind = \"HKSAL\", version = 6, account = \"national\"},
  {kind = \"HKSAL\", version = 7, account = \"international\"},
  # Direct debits before SEPA, several
  {kind = \"HKSLA\", version = 3, account = \"none\"},
  {kind = \"HKSLA\", version = 4, account = \"none\"},
  {kind = \"HKSLA\", version = 5, account = \"national\"},
  {kind = \"HKSLA\", version = 6, account = \"national\"},
  {kind = \"HKSLB\", version = 3, account = \"national\"},
  {kind = \"HKSLE\", version = 3, account = \"national\"},
  {kind = \"HKSLL\", version = 3, account = \"none\"},
  # The SEPA names of the user's accounts. It may name any number of accounts, and without one it asks
  # for all of them, as most clients do. For a client that names one, write \"national\" here.
  {kind = \"HKSPA\", version = 1, account = \"none\"},
  # A key is locked
  {kind = \"HKSSP\", version = 3, account = \"none\"},
  # Transfers before SEPA, several
  {kind = \"HKSUB\", version = 3, account = \"none\"},
  {kind = \"HKSUB\", version = 4, account = \"none\"},
  {kind = \"HKSUB\", version = 5, account = \"national\"},
  {kind = \"HKSUB\", version = 6, account = \"national\"},
  # The TAN media
  {kind = \"HKTAB\", version = 1, account = \"none\"},
  {kind = \"HKTAB\", version = 2, account = \"none\"},
  {kind = \"HKTAB\", version = 3, account = \"none\"},
  {kind = \"HKTAB\", version = 4, account = \"none\"},
  {kind = \"HKTAB\", version = 5, account = \"none\"},
  # TANs that were used
  {kind = \"HKTAZ\", version = 1, account = \"none\"},
  {kind = \"HKTSB\", version = 3, account = \"national\"},
  {kind = \"HKTSE\", version = 3, account = \"national\"},
  {kind = \"HKTSL\", version = 3, account = \"none\"},
  # Transfers at a date before SEPA: a change of one
  {kind = \"HKTUA\", version = 3, account = \"national\"},
  {kind = \"HKTUA\", version = 4, account = \"national\"},
  # Transfers at a date before SEPA: the list
  {kind = \"HKTUB\", version = 2, account = \"national\"},
  {kind = \"HKTUB\", version = 3, account = \"national\"},
  # Transfers at a date before SEPA: a new one
  {kind = \"HKTUE\", version = 3, account = \"national\"},
  {kind = \"HKTUE\", version = 4, account = \"national\"},
  # Transfers at a date before SEPA: the end of one
  {kind = \"HKTUL\", version = 2, account = \"national\"},
  {kind = \"HKTUL\", version = 3, account = \"national\"},
  # A transfer before SEPA
  {kind = \"HKUEB\", version = 4, account = \"national\"},
  {kind = \"HKUEB\", version = 5, account = \"national\"},
  # A transfer between accounts of the user before SEPA
  {kind = \"HKUMB\", version = 1, account = \"national\"},
  {kind = \"HKUMB\", version = 2, account = \"national\"},
  # Turnover that is noted and not yet booked
  {kind = \"HKVMK\", version = 1, account = \"national\"},
  # The check of a payee's name: a transfer is released though names differ
  {kind = \"HKVPA\", version = 1, account = \"none\"},
  # The check of a payee's name: asked for, beside a transfer
  {kind = \"HKVPP\", version = 1, account = \"none\"},
  {kind = \"HKWDU\", version = 3, account = \"national\"},
  {kind = \"HKWDU\", version = 4, account = \"national\"},
  {kind = \"HKWDU\", version = 5, account = \"national\"},
  # Securities of a deposit
  {kind = \"HKWPD\", version = 4, account = \"national\"},
  {kind = \"HKWPD\", version = 5, account = \"national\"},
  {kind = \"HKWPD\", version = 6, account = \"national\"},
  {kind = \"HKWPI\", version = 1, account = \"none\"},
  {kind = \"HKWPI\", version = 2, account = \"national\"},
  {kind = \"HKWPI\", version = 3, account = \"national\"},
  {kind = \"HKWPK\", version = 1, account = \"none\"},
  {kind = \"HKWPK\", version = 2, account = \"national\"},
  {kind = \"HKWPK\", version = 3, account = \"national\"},
  {kind = \"HKWPR\", version = 1, account = \"none\"},
  {kind = \"HKWPR\", version = 2, account = \"none\"},
  {kind = \"HKWPR\", version = 3, account = \"none\"},
  {kind = \"HKWSD\", version = 1, account = \"none\"},
  {kind = \"HKWSD\", version = 2, account = \"national\"},
  {kind = \"HKWSD\", version = 3, account = \"national\"},
  # A statement of account as camt, by the standard's publications
  {kind = \"HKECA\", version = 1, account = \"international\"},
]
";

/// The text of the order table with the orders of FinTS 3.0.
#[tactic(auto, unfolding(crate::specs::BuiltIn::all_orders))]
pub fn all_orders() -> &'static [u8]
    ensures { result.now ≡ all_orders }
{
    ALL_ORDERS
}
