// The demands on the gateway, over lists of calls on the ledger of a card: stated in specs/, proved in proofs/.
#![tactic(auto)]
